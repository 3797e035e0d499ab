// The writer that follows the forms of expressions.

ghost use Rattle.std.specs.Prelude.{◌≡◌, ◌+◌, ◌<◌, ◌≤◌, length, if◌then◌else◌};
ghost use Rattle.std.proofs.lemmas.List.Edits.{sets};
ghost use Rattle.records.specs.Meanings.{form_of};
ghost use Rattle.records.specs.Tree.{records, expr_at};
ghost use Rattle.code.specs.declared.ops.Op.TheVariants.{JumpIfTrue, JumpIfFalse};
ghost use Rattle.meaning.specs.Writers.{writer as writing, size as size_of, written as segment_of};
ghost use Rattle.meaning.proofs.Tabled.{naming-lawful};
ghost use Rattle.writers.specs.Leaves.{naming, leaf_of, decides, closing};
ghost use Rattle.writers.specs.Write.{tables_for, reading};

use crate::named::Named;
use crate::names::number_of;
use crate::sizes::items_size;
use crate::writer::Writer;
use code::{Instr, Op};
use records::{Form, Refusal};

// Follows the forms, lists inside lists to any depth; knows the expressions whose segments fit in 64 operations.
#[derive(Clone, Copy)]
pub struct Written;

// The one operation of an expression that is no list. A name that the table lacks is asked.
fn leaf(named: &Named, expr: u32) -> Op
    requires { expr < length named.now.script.exprs.now }
    ensures { result ≡ leaf_of (tables_for named.now) (records named.now.script) (form_of (expr_at (records named.now.script) expr).form) expr }
{
    let record = named.script.exprs[expr as usize];
    match Form::try_from(record.form) {
        Ok(Form::Unit) => Op::Unit,
        Ok(Form::True) => Op::Bool(true),
        Ok(Form::False) => Op::Bool(false),
        Ok(Form::Name) => match number_of(named, record.label) {
            Some(number) => Op::LoadNamed(number),
            None => Op::EvalExpr(expr),
        },
        _ => Op::EvalExpr(expr),
    }
}

// The value that decides a list of a form, if it is a list: false an all of, true an any of. No enum: the value is put.
fn decider(form: u32) -> Option<bool>
    ensures { result ≡ decides (form_of form) }
{
    match Form::try_from(form) {
        Ok(Form::AllOf) => Some(false),
        Ok(Form::AnyOf) => Some(true),
        _ => None,
    }
}

// The test after an item: any of stops where it is true, all of where it is false.
fn test(on: bool, target: u32) -> Op
    ensures { result ≡ (if on then JumpIfTrue target else JumpIfFalse target) }
{
    if on {
        Op::JumpIfTrue { target }
    } else {
        Op::JumpIfFalse { target }
    }
}

// Ends a list from a place on: the place after it.
fn close(on: bool, at: usize, out: &mut [Instr]) -> usize
    requires within { at + 3 ≤ length out.old }
    requires short { at + 3 ≤ 64 }
    ensures place { result ≡ at + 3 }
    ensures after { out.new ≡ sets out.old at (closing on at) }
{
    out[at] = Instr::bare(Op::Bool(!on));
    out[at + 1] = Instr::bare(Op::Jump((at + 3) as u32));
    out[at + 2] = Instr::bare(Op::Bool(on));
    at + 3
}

// Writes the segment of an expression from a place on: the place after it.
fn put(named: &Named, expr: u32, at: usize, out: &mut [Instr]) -> usize
    requires inside { (0 < expr) × (expr < length named.now.script.exprs.now) }
    requires within { at + size_of (reading named.now expr) ≤ length out.old }
    requires short { at + size_of (reading named.now expr) ≤ 64 }
    ensures place { result ≡ at + size_of (reading named.now expr) }
    ensures after { out.new ≡ sets out.old at (segment_of (tables_for named.now) (reading named.now expr) at) }
{
    let exprs = named.script.exprs;
    let Some(on) = decider(exprs[expr as usize].form) else {
        out[at] = Instr::bare(leaf(named, expr));
        return at + 1;
    };
    let end = exprs[expr as usize].end;
    let decided = (at + items_size(&named.script, expr + 1, end) + 2) as u32;
    let mut place = at;
    let mut item = expr + 1;
    // an item ends where the next begins: `successors` with `take_while` would be no plainer
    while item < end {
        place = put(named, item, place, out);
        out[place] = Instr {
            op: test(on, decided),
            at: exprs[item as usize].at,
        };
        place += 1;
        item = exprs[item as usize].end;
    }
    close(on, place, out)
}

impl Writer for Written {
    const LONGEST: usize = 64;

    const RISE: usize = 1;

    ghost means = { λ _ R names. writing (naming names) R };

    ghost lawful = { λ _ R T passed. naming-lawful R T passed };

    fn bounds() -> (usize, usize) {
        (Self::LONGEST, Self::RISE)
    }

    fn write(&self, named: &Named, expr: u32, out: &mut [Instr]) -> Result<usize, Refusal> {
        if !named.has(expr) {
            return Err(Refusal::UnknownExpression);
        }
        let script = &named.script;
        let size = items_size(script, expr, script.exprs[expr as usize].end) - 1;
        if size > Self::LONGEST {
            return Err(Refusal::UnknownExpression);
        }
        if out.len() < size {
            return Err(Refusal::NoCodeRoom);
        }
        Ok(put(named, expr, 0, out))
    }
}
