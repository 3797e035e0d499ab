// The parts of a `try`.

ghost use Rattle.std.specs.Prelude.{◌≡◌};
ghost use Rattle.records.specs.Tree.{Records, if_any, name_of, records};
ghost use Rattle.meaning.specs.Lower.{declare_any, may_catch, name_any};
ghost use Rattle.lowering.specs.View.{Did, Lent, parts};
ghost use Rattle.statements.specs.Parts.{begin_catch, begin_try, end_body, end_catch, end_caught};

use crate::fields::present;
use crate::jumps::{emit_if_value, leaves_value};
use code::{Lowered, Op};
use lowering::Lowering;
use records::{Position, Refusal};

// The number of a catch name, if there is one.
pub fn catch_name(c: &mut Lowering, label: u32) -> Result<Option<u32>, Refusal>
    ensures lent { Lent c.old c.new }
    ensures did { Did (name_any (records c.old.script) (if_any (name_of (records c.old.script)) label)) c.old result c.new }
    ensures only { parts c.new ≡ record (parts c.old) { names = c.new.names } }
{
    match present(label) {
        Some(label) => Ok(Some(c.push_name(label)?)),
        None => Ok(None),
    }
}

// The slot limit, for a catch name.
pub fn may_catch(c: &Lowering, label: u32) -> Result<(), Refusal>
    ensures { (R : Records) → Did (may_catch R (if_any (name_of R) label)) c.now result c.now }
{
    match present(label) {
        Some(_) => c.may_declare(),
        None => Ok(()),
    }
}

// The slot of a catch name.
pub fn declare_catch(c: &mut Lowering, label: u32) -> Result<(), Refusal>
    ensures lent { Lent c.old c.new }
    ensures did { (R : Records) → Did (declare_any R (if_any (name_of R) label)) c.old result c.new }
    ensures only { parts c.new ≡ record (parts c.old) { slots = c.new.slots; deepest = c.new.deepest } }
{
    match present(label) {
        Some(label) => c.declare(label),
        None => Ok(()),
    }
}

// A `try` begins: the place of its handler is answered.
pub fn begin_try(c: &mut Lowering, label: u32, mark: Position) -> Result<u32, Refusal>
    ensures lent { Lent c.old c.new }
    ensures did { Did (begin_try (records c.old.script) (if_any (name_of (records c.old.script)) label) mark) c.old result c.new }
    ensures only { parts c.new ≡ record (parts c.old) { code = c.new.code; names = c.new.names; handlers = c.new.handlers } }
{
    let catch_var = catch_name(c, label)?;
    let site = c.emit_at(
        Op::PushHandler {
            target: u32::MAX,
            catch_var,
        },
        mark,
    )?;
    c.begin_handler();
    Ok(site)
}

// The body ends: the handler's catch block begins here, and the place of the jump past it is answered.
pub fn end_body(c: &mut Lowering, label: u32, site: u32) -> Result<u32, Refusal>
    ensures lent { Lent c.old c.new }
    ensures did { (R : Records) → Did (end_body R (if_any (name_of R) label) site) c.old result c.new }
    ensures only { parts c.new ≡ record (parts c.old) { code = c.new.code; handlers = c.new.handlers } }
{
    may_catch(c, label)?;
    c.emit(Op::PopHandler)?;
    c.end_handler();
    let past = c.emit(Op::Jump(u32::MAX))?;
    c.patch_here(site);
    c.begin_handler();
    Ok(past)
}

// The catch block begins: the depth that it unwinds to is answered.
pub fn begin_catch(c: &mut Lowering, label: u32) -> Result<u16, Refusal>
    ensures lent { Lent c.old c.new }
    ensures did { (R : Records) → Did (begin_catch R (if_any (name_of R) label)) c.old result c.new }
    ensures only { parts c.new ≡ record (parts c.old) { slots = c.new.slots; deepest = c.new.deepest } }
{
    let outside = c.depth();
    declare_catch(c, label)?;
    Ok(outside)
}

// The catch block ends: unit where the body left a value.
pub fn end_catch(
    c: &mut Lowering,
    outside: u16,
    body: Lowered,
    past: u32,
) -> Result<Lowered, Refusal>
    ensures lent { Lent c.old c.new }
    ensures did { Did (end_catch outside body past) c.old result c.new }
    ensures only { parts c.new ≡ record (parts c.old) { code = c.new.code; slots = c.new.slots; deepest = c.new.deepest; handlers = c.new.handlers } }
{
    c.unwind_to(outside)?;
    c.emit(Op::PopHandler)?;
    c.end_handler();
    c.emit_if(leaves_value(body), Op::Unit)?;
    c.patch_here(past);
    Ok(body)
}

// The end of a `try` after its catch block: what that left goes first.
pub fn end_caught(
    c: &mut Lowering,
    outside: u16,
    body: Lowered,
    caught: Lowered,
    past: u32,
) -> Result<Lowered, Refusal>
    ensures lent { Lent c.old c.new }
    ensures did { Did (end_caught outside body caught past) c.old result c.new }
    ensures only { parts c.new ≡ record (parts c.old) { code = c.new.code; slots = c.new.slots; deepest = c.new.deepest; handlers = c.new.handlers } }
{
    emit_if_value(c, caught, Op::Pop)?;
    end_catch(c, outside, body, past)
}
