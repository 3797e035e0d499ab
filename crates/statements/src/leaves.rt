// Statements without blocks that declare and assign nothing.

ghost use Rattle.std.specs.Prelude.{◌≡◌, ◌-◌};
ghost use Rattle.records.specs.Tree.{Records, exp_of, if_any, name_of, records};
ghost use Rattle.meaning.specs.LowerState.{bind, innermost};
ghost use Rattle.meaning.specs.Lower.{expression_or, throwing as throwing_m, returning as returning_m, calling as calling_m, giving_up, bringing as bringing_m, owned, breaking as breaking_m, continuing as continuing_m};
ghost use Rattle.lowering.specs.View.{Did, Lent, parts};

use crate::fields::present;
use crate::rows::{expression, statement_row};
use code::{Loop, Lowered, Op};
use lowering::{Lowering, same_bytes};
use records::{Position, Refusal};

// An expression, or unit where it is absent.
pub fn expression_or_unit(c: &mut Lowering, expr: u32) -> Result<(), Refusal>
    ensures lent { Lent c.old c.new }
    ensures did { (R : Records) → Did (expression_or (if_any (exp_of R) expr)) c.old result c.new }
    ensures only { parts c.new ≡ record (parts c.old) { code = c.new.code; rows = c.new.rows } }
{
    if let Some(expr) = present(expr) {
        return expression(c, expr);
    }
    c.emit(Op::Unit)?;
    Ok(())
}

// `throw`, at its own position.
pub fn throwing(c: &mut Lowering, expr: u32, at: Position) -> Result<Lowered, Refusal>
    ensures lent { Lent c.old c.new }
    ensures did { (R : Records) → Did (throwing_m R (if_any (exp_of R) expr) at) c.old result c.new }
    ensures only { parts c.new ≡ record (parts c.old) { code = c.new.code; rows = c.new.rows } }
{
    expression_or_unit(c, expr)?;
    c.emit_at(Op::Throw, at)?;
    Ok(Lowered::Empty)
}

// `return`.
pub fn returning(c: &mut Lowering, expr: u32) -> Result<Lowered, Refusal>
    ensures lent { Lent c.old c.new }
    ensures did { (R : Records) → Did (returning_m R (if_any (exp_of R) expr)) c.old result c.new }
    ensures only { parts c.new ≡ record (parts c.old) { code = c.new.code; rows = c.new.rows } }
{
    expression_or_unit(c, expr)?;
    c.emit(Op::Return)?;
    Ok(Lowered::Empty)
}

// A call, by its node: one of `eval` is refused.
pub fn calling(c: &mut Lowering, label: u32, number: u32) -> Result<Lowered, Refusal>
    ensures lent { Lent c.old c.new }
    ensures did { Did (calling_m (records c.old.script) (name_of (records c.old.script) label) number) c.old result c.new }
    ensures only { parts c.new ≡ record (parts c.old) { code = c.new.code; rows = c.new.rows } }
{
    let script = c.script;
    if same_bytes(script.name(label), b"eval") {
        return Err(Refusal::EvalCall);
    }
    statement_row(c, number)
}

// Handlers and iterators above a floor are given up.
#[tactic(auto, unfolding(lowering::specs::View::low, meaning::specs::LowerState::set_handlers, meaning::specs::LowerState::set_iters))]
pub fn give_up(c: &mut Lowering, handlers: usize, iters: usize) -> Result<(), Refusal>
    ensures lent { Lent c.old c.new }
    ensures did { Did (giving_up handlers iters) c.old result c.new }
    ensures only { parts c.new ≡ record (parts c.old) { code = c.new.code } }
{
    let armed = c.handlers.saturating_sub(handlers);
    c.emit_times(armed, Op::PopHandler)?;
    let live = c.iters.saturating_sub(iters);
    c.emit_times(live, Op::IterDrop)
}

// The iterators that a break out of a loop leaves: not the loop's own.
pub fn iters_outside(active: &Loop) -> usize
    ensures { result ≡ active.now.iters - owned active.now.owns_iterator }
{
    active
        .iters
        .saturating_sub(usize::from(active.owns_iterator))
}

// What a break brings: its value, or unit where the loop has a break value.
pub fn bringing(c: &mut Lowering, expr: u32, valued: bool) -> Result<(), Refusal>
    ensures lent { Lent c.old c.new }
    ensures did { (R : Records) → Did (bringing_m R (if_any (exp_of R) expr) valued) c.old result c.new }
    ensures only { parts c.new ≡ record (parts c.old) { code = c.new.code; rows = c.new.rows } }
{
    match present(expr) {
        Some(expr) => expression(c, expr)?,
        None if valued => {
            c.emit(Op::Unit)?;
        }
        None => return Ok(()),
    }
    c.emit(Op::Rotate(0))?;
    Ok(())
}

// `break`: its jump place joins the innermost loop's record.
pub fn breaking(c: &mut Lowering, expr: u32) -> Result<Lowered, Refusal>
    ensures lent { Lent c.old c.new }
    ensures did { (R : Records) → Did (bind innermost (λ l. breaking_m R (if_any (exp_of R) expr) l)) c.old result c.new }
    ensures only { parts c.new ≡ record (parts c.old) { code = c.new.code; rows = c.new.rows; breaks = c.new.breaks; loops = c.new.loops } }
{
    let Some(active) = c.innermost() else {
        return Err(Refusal::OutsideLoop);
    };
    bringing(c, expr, active.has_break_value)?;
    give_up(c, active.handlers, iters_outside(&active))?;
    c.emit(Op::UnwindTo(active.break_depth))?;
    let site = c.emit(Op::Jump(u32::MAX))?;
    c.add_break(site)?;
    Ok(Lowered::Empty)
}

// `continue`: back to the innermost loop's top.
pub fn continuing(c: &mut Lowering) -> Result<Lowered, Refusal>
    ensures lent { Lent c.old c.new }
    ensures did { (R : Records) → Did (bind innermost (λ l. continuing_m R l)) c.old result c.new }
    ensures only { parts c.new ≡ record (parts c.old) { code = c.new.code } }
{
    let Some(active) = c.innermost() else {
        return Err(Refusal::OutsideLoop);
    };
    give_up(c, active.handlers, active.iters)?;
    c.emit(Op::UnwindTo(active.continue_depth))?;
    c.emit(Op::Jump(active.continue_target))?;
    Ok(Lowered::Empty)
}
