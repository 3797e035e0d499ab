// What setting tests before it writes anything.

ghost use Rattle.std.specs.Prelude.{◌≡◌, ◌||◌, length, if◌then◌else◌, nat_lt};
ghost use Rattle.std.proofs.Math.Option.{none, some};
ghost use Rattle.records.specs.Tree.{records};
ghost use Rattle.records.specs.Checks.{answered};
ghost use Rattle.meaning.specs.SetCode.{target_of, target_fine, targets_fine, row_fine, rows_fine, set_too_large};
ghost use Rattle.setting.specs.Checks.{check_fault};

use crate::compiled::Compiled;
use code::{Instr, Op, Row, RowKind};
use records::{MOST_BYTES, MOST_EXPRS, MOST_LABELS, Refusal, check_exprs, check_labels};
use targets::target_of;

// The most operations of code, before setting and after.
const MOST_OPS: usize = 4_194_304;

// Too many records, bytes, names or operations.
fn check_sizes(code: &Compiled, room: usize) -> Result<(), Refusal>
    ensures { answered result ≡ (if nat_lt 65536 (length code.now.names.now) || set_too_large (records code.now.script) (length code.now.ops.now) room then some 10 else none) }
{
    if code.names.len() > MOST_LABELS
        || code.script.text.len() > MOST_BYTES
        || code.script.labels.len() > MOST_LABELS
        || code.script.exprs.len() > MOST_EXPRS
        || code.ops.len() > MOST_OPS
        || room > MOST_OPS
    {
        return Err(Refusal::TooLarge);
    }
    Ok(())
}

// A target is below the count of operations.
fn target_is_fine(op: Op, count: usize) -> bool
    ensures { result ≡ target_fine count (target_of op) }
{
    target_of(op).is_none_or(|target| (target as usize) < count)
}

fn targets_are_fine(ops: &[Instr]) -> bool
    ensures { result ≡ targets_fine (length ops.now) ops.now }
{
    ops.iter().all(|x| target_is_fine(x.op, ops.len()))
}

// A residual row is an expression's, which is a record, or a statement's.
fn row_is_fine(row: Row, exprs: usize) -> bool
    ensures { result ≡ row_fine exprs row }
{
    match RowKind::try_from(row.kind) {
        Ok(RowKind::Expression) => row.number > 0 && (row.number as usize) < exprs,
        Ok(RowKind::Statement) => true,
        Err(_) => false,
    }
}

fn rows_are_fine(code: &Compiled) -> bool
    ensures { result ≡ rows_fine (length code.now.script.exprs.now) code.now.rows.now }
{
    code.rows
        .iter()
        .all(|row| row_is_fine(*row, code.script.exprs.len()))
}

// The first fault in order: sizes; labels and expressions; targets and rows; the memory for new places.
pub fn check(code: &Compiled, room: usize, places: usize) -> Result<(), Refusal>
    ensures { answered result ≡ check_fault (records code.now.script) code.now.names.now code.now.ops.now code.now.rows.now room places }
{
    check_sizes(code, room)?;
    check_labels(&code.script)?;
    check_exprs(&code.script)?;
    if !targets_are_fine(code.ops) || !rows_are_fine(code) {
        return Err(Refusal::Malformed);
    }
    if places < code.ops.len() {
        return Err(Refusal::NoCodeRoom);
    }
    Ok(())
}
