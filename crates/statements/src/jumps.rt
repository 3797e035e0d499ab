// Tests and jumps of `if`, `while` and `do`.

ghost use Rattle.std.specs.Prelude.{◌≡◌, ◌<◌, ◌||◌, ◌==◌, length};
ghost use Rattle.records.specs.Tree.{exp_of, records};
ghost use Rattle.meaning.specs.Lower.{emit_if, leaves, jump_if, meet as meet_m, round_test, testing as testing_m};
ghost use Rattle.lowering.specs.View.{Did, Lent, parts};
ghost use Rattle.statements.specs.Parts.{begin_if, end_then};

use crate::rows::expression;
use code::{Lowered, Op};
use lowering::Lowering;
use records::{Form, Position, Refusal};

// Does a statement leave a value?
pub fn leaves_value(lowered: Lowered) -> bool
    ensures { result ≡ leaves lowered }
{
    matches!(lowered, Lowered::Value)
}

// An operation, if a statement left a value.
pub fn emit_if_value(c: &mut Lowering, lowered: Lowered, op: Op) -> Result<(), Refusal>
    ensures lent { Lent c.old c.new }
    ensures did { Did (emit_if (leaves lowered) op) c.old result c.new }
    ensures only { parts c.new ≡ record (parts c.old) { code = c.new.code } }
{
    c.emit_if(leaves_value(lowered), op)
}

// A jump past the branch, where something is to be passed.
pub fn jump_if(c: &mut Lowering, wanted: bool) -> Result<Option<u32>, Refusal>
    ensures lent { Lent c.old c.new }
    ensures did { Did (jump_if wanted) c.old result c.new }
    ensures only { parts c.new ≡ record (parts c.old) { code = c.new.code } }
{
    if wanted {
        return Ok(Some(c.emit(Op::Jump(u32::MAX))?));
    }
    Ok(None)
}

// The condition of an `if`, worked out and tested at its position; the place of the jump to the branch is answered.
pub fn begin_if(c: &mut Lowering, expr: u32, at: Position) -> Result<u32, Refusal>
    ensures lent { Lent c.old c.new }
    ensures did { Did (begin_if expr at) c.old result c.new }
    ensures only { parts c.new ≡ record (parts c.old) { code = c.new.code; rows = c.new.rows } }
{
    expression(c, expr)?;
    c.emit_at(Op::JumpIfFalse { target: u32::MAX }, at)
}

// The end of an `if`'s body, after which its branch begins. Where there is a branch to pass, or the unit that it wants
// beside a value, the place of the jump past it is answered.
pub fn end_then(
    c: &mut Lowering,
    has_branch: bool,
    then: Lowered,
    to_else: u32,
) -> Result<Option<u32>, Refusal>
    ensures lent { Lent c.old c.new }
    ensures did { Did (end_then has_branch then to_else) c.old result c.new }
    ensures only { parts c.new ≡ record (parts c.old) { code = c.new.code } }
{
    let past = jump_if(c, has_branch || leaves_value(then))?;
    c.patch_here(to_else);
    Ok(past)
}

// Both ways of an `if` come to the same height.
pub fn meet(
    c: &mut Lowering,
    then: Lowered,
    other: Lowered,
    past: Option<u32>,
) -> Result<Lowered, Refusal>
    ensures lent { Lent c.old c.new }
    ensures did { Did (meet_m then other past) c.old result c.new }
    ensures only { parts c.new ≡ record (parts c.old) { code = c.new.code } }
{
    match (then, other) {
        (Lowered::Value, Lowered::Empty) => {
            c.emit(Op::Unit)?;
            c.patch_here_if(past);
            Ok(Lowered::Value)
        }
        (Lowered::Empty, Lowered::Value) => {
            let trailer = c.emit(Op::Jump(u32::MAX))?;
            c.patch_here_if(past);
            c.emit(Op::Unit)?;
            c.patch_here(trailer);
            Ok(Lowered::Value)
        }
        (Lowered::Value, Lowered::Value) | (Lowered::Empty, Lowered::Empty) => {
            c.patch_here_if(past);
            Ok(then)
        }
    }
}

// Is a condition of this form always true?
fn is_endless(form: u32) -> bool
    ensures { result ≡ (form == 1 || form == 2) }
{
    matches!(Form::try_from(form), Ok(Form::Unit | Form::True))
}

// The test of a `while`, unless it is endless.
pub fn testing(c: &mut Lowering, expr: u32) -> Result<Option<u32>, Refusal>
    requires { expr < length c.old.script.exprs.now }
    ensures lent { Lent c.old c.new }
    ensures did { Did (testing_m (records c.old.script) (exp_of (records c.old.script) expr)) c.old result c.new }
    ensures only { parts c.new ≡ record (parts c.old) { code = c.new.code; rows = c.new.rows } }
{
    let condition = c.script.exprs[expr as usize];
    if is_endless(condition.form) {
        return Ok(None);
    }
    expression(c, expr)?;
    let site = c.emit_at(Op::JumpIfFalse { target: u32::MAX }, condition.at)?;
    Ok(Some(site))
}

// The test of a `do`: under `until` a jump straight back where it is false.
pub fn round_test(c: &mut Lowering, until: bool, at: Position, top: u32) -> Result<(), Refusal>
    ensures lent { Lent c.old c.new }
    ensures did { Did (round_test until at top) c.old result c.new }
    ensures only { parts c.new ≡ record (parts c.old) { code = c.new.code } }
{
    if until {
        c.emit_at(Op::JumpIfFalse { target: top }, at)?;
        return Ok(());
    }
    let exit = c.emit_at(Op::JumpIfFalse { target: u32::MAX }, at)?;
    c.emit(Op::Jump(top))?;
    c.patch_here(exit);
    Ok(())
}
