// A caller of the compiler's steps over memory of its own: what the memory holds is known once the compiler is gone.
#![tactic(auto, unfolding(lowering::specs::View::low, meaning::specs::LowerState::emit_at))]

ghost use Rattle.std.specs.Prelude.{◌≡◌, IfErr, IfOk, [], ◌∷◌, length, take};
ghost use Rattle.records.specs.declared.refusals.Refusal.TheVariants.{NoRoom};
ghost use Rattle.records.specs.Tree.{nowhere};

use code::{AssignOp, Instr, Loop, Op, Row};
use lowering::{Level, Lowering};
use records::{Refusal, Script};
use stack64::Stack64;
use tables::Stack;

// A loop's record that is not in use.
const NO_LOOP: Loop = Loop {
    continue_target: 0,
    break_depth: 0,
    continue_depth: 0,
    iters: 0,
    owns_iterator: false,
    handlers: 0,
    breaks: 0,
    has_break_value: false,
};

// Lowers nothing but one operation: it stands at the start of the code's memory, if there is any, and no other memory is
// written.
pub fn one_operation(
    script: Script,
    code: &mut [Instr],
    rows: &mut [Row],
    names: &mut [u32],
    operators: &mut [AssignOp],
    slots: &mut [u32],
    breaks: &mut [u32],
    op: Op,
) -> Result<u32, Refusal>
    ensures first { IfOk result (λ place. (place ≡ 0) × (take 1 code.new ≡ record { op = op; at = nowhere } ∷ [])) }
    ensures refused { IfErr result (λ why. (why ≡ NoRoom) × ((length code.old ≡ 0) × (code.new ≡ code.old))) }
    ensures rows { rows.new ≡ rows.old }
    ensures names { names.new ≡ names.old }
    ensures operators { operators.new ≡ operators.old }
    ensures slots { slots.new ≡ slots.old }
    ensures breaks { breaks.new ≡ breaks.old }
{
    let mut code = Stack {
        items: code,
        len: 0,
    };
    let mut rows = Stack {
        items: rows,
        len: 0,
    };
    let mut names = Stack {
        items: names,
        len: 0,
    };
    let mut operators = Stack {
        items: operators,
        len: 0,
    };
    let mut slots = Stack {
        items: slots,
        len: 0,
    };
    let mut breaks = Stack {
        items: breaks,
        len: 0,
    };
    let mut c = Lowering {
        script,
        code: &mut code,
        rows: &mut rows,
        names: &mut names,
        operators: &mut operators,
        slots: &mut slots,
        breaks: &mut breaks,
        loops: Stack64::new(NO_LOOP),
        block: Level { level: 0, base: 0 },
        iters: 0,
        handlers: 0,
        limit: 0,
        deepest: 0,
    };
    let place = c.emit(op)?;
    Ok(place)
}

#[cfg(test)]
mod tests {
    use super::*;

    #[test]
    fn one_operation_is_written(rt: HostRuntime) {
        let script = Script {
            text: &[],
            labels: &[],
            exprs: &[],
            operators: &[],
            nodes: &[],
            limit: 0,
            keep: false,
        };
        let mut code = [Instr::bare(Op::Unit); 2];
        let place = one_operation(
            script,
            &mut code,
            &mut [],
            &mut [],
            &mut [],
            &mut [],
            &mut [],
            Op::Tick,
        );
        assert_eq!(rt; place, Ok(0));
        assert_eq!(rt; code[0], Instr::bare(Op::Tick));
    }
}
