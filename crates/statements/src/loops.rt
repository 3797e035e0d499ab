// Loops: the parts of a `for`, a `while` and a `do`, and how each ends.

ghost use Rattle.std.specs.Prelude.{◌≡◌, ◌<◌, length};
ghost use Rattle.records.specs.Tree.{exp_of, name_of, records};
ghost use Rattle.meaning.specs.Lower.{exit_loop};
ghost use Rattle.lowering.specs.View.{Did, Lent, parts};
ghost use Rattle.statements.specs.Parts.{begin_do, begin_for, begin_while, end_do, end_for, end_round, end_while, loop_variable, open_iter};

use crate::jumps::{emit_if_value, round_test, testing};
use crate::rows::expression;
use code::{Lowered, Op};
use lowering::Lowering;
use records::{Position, Refusal};

// A loop's end: unit where it has a break value, and just past that its breaks land.
pub fn exit_loop(c: &mut Lowering, count: usize, valued: bool) -> Result<Lowered, Refusal>
    ensures lent { Lent c.old c.new }
    ensures did { Did (exit_loop count valued) c.old result c.new }
    ensures only { parts c.new ≡ record (parts c.old) { code = c.new.code; breaks = c.new.breaks } }
{
    c.emit_if(valued, Op::Unit)?;
    c.land(count);
    Ok(if valued {
        Lowered::Value
    } else {
        Lowered::Empty
    })
}

// The iterator of a `for`, made of an expression that starts at a position, and the slot limit.
pub fn open_iterator(c: &mut Lowering, expr: u32, start: Position) -> Result<(), Refusal>
    ensures lent { Lent c.old c.new }
    ensures did { Did (open_iter expr start) c.old result c.new }
    ensures only { parts c.new ≡ record (parts c.old) { code = c.new.code; rows = c.new.rows; iters = c.new.iters } }
{
    expression(c, expr)?;
    c.emit_at(Op::IterInit, start)?;
    c.begin_iterator();
    c.may_declare()
}

// The variable of a `for`, first as unit.
pub fn loop_variable(c: &mut Lowering, label: u32) -> Result<(), Refusal>
    ensures lent { Lent c.old c.new }
    ensures did { Did (loop_variable (records c.old.script) (name_of (records c.old.script) label)) c.old result c.new }
    ensures only { parts c.new ≡ record (parts c.old) { code = c.new.code; names = c.new.names; slots = c.new.slots; deepest = c.new.deepest } }
{
    let name = c.push_name(label)?;
    c.emit(Op::Unit)?;
    c.emit(Op::DeclareLocal {
        name,
        is_const: false,
        is_global: false,
    })?;
    c.declare(label)
}

// A round of a loop: its top, and the jump out of it, by its place. (What was known before is handed to its end, as the
// rules do.)
#[derive(Clone, Copy)]
pub struct Round<Exit> {
    pub top: u32,
    pub exit: Exit,
}

// A round of a `while`, which is left by a jump unless it is endless.
pub type TestedRound = Round<Option<u32>>;

// A round of a `for` begins.
pub fn begin_for(
    c: &mut Lowering,
    at: Position,
    mark: Position,
    outside: u16,
    valued: bool,
) -> Result<Round<u32>, Refusal>
    ensures lent { Lent c.old c.new }
    ensures did { Did (begin_for at mark outside valued) c.old result c.new }
    ensures only { parts c.new ≡ record (parts c.old) { code = c.new.code; loops = c.new.loops } }
{
    c.emit_at(Op::Tick, mark)?;
    let top = c.here();
    let exit = c.emit_at(
        Op::IterNext {
            exit: u32::MAX,
            counter_slot: None,
        },
        at,
    )?;
    c.emit(Op::StoreShared(outside))?;
    c.begin_loop(top, outside, true, valued)?;
    Ok(Round { top, exit })
}

// The end of a `for`: its iterator and its variable are gone.
pub fn end_for(
    c: &mut Lowering,
    round: Round<u32>,
    outside: u16,
    valued: bool,
) -> Result<Lowered, Refusal>
    ensures lent { Lent c.old c.new }
    ensures did { Did (end_for round outside valued) c.old result c.new }
    ensures only { parts c.new ≡ record (parts c.old) { code = c.new.code; slots = c.new.slots; deepest = c.new.deepest; breaks = c.new.breaks; loops = c.new.loops; iters = c.new.iters } }
{
    c.emit(Op::Jump(round.top))?;
    let count = c.end_loop();
    c.patch_here(round.exit);
    c.end_iterator();
    c.emit(Op::UnwindTo(outside))?;
    c.drop_slots(outside);
    exit_loop(c, count, valued)
}

// The end of a `for` after its body: what that left goes first.
pub fn end_round(
    c: &mut Lowering,
    round: Round<u32>,
    outside: u16,
    body: Lowered,
    valued: bool,
) -> Result<Lowered, Refusal>
    ensures lent { Lent c.old c.new }
    ensures did { Did (end_round round outside body valued) c.old result c.new }
    ensures only { parts c.new ≡ record (parts c.old) { code = c.new.code; slots = c.new.slots; deepest = c.new.deepest; breaks = c.new.breaks; loops = c.new.loops; iters = c.new.iters } }
{
    emit_if_value(c, body, Op::Pop)?;
    end_for(c, round, outside, valued)
}

// A `while` begins: its test, unless it is endless, and its record.
pub fn begin_while(
    c: &mut Lowering,
    expr: u32,
    mark: Position,
    valued: bool,
) -> Result<TestedRound, Refusal>
    requires { expr < length c.old.script.exprs.now }
    ensures lent { Lent c.old c.new }
    ensures did { Did (begin_while (records c.old.script) (exp_of (records c.old.script) expr) mark valued) c.old result c.new }
    ensures only { parts c.new ≡ record (parts c.old) { code = c.new.code; rows = c.new.rows; loops = c.new.loops } }
{
    c.emit_at(Op::Tick, mark)?;
    let top = c.here();
    let exit = testing(c, expr)?;
    let outside = c.depth();
    c.begin_loop(top, outside, false, valued)?;
    Ok(TestedRound { top, exit })
}

// The end of a `while`.
pub fn end_while(
    c: &mut Lowering,
    round: TestedRound,
    body: Lowered,
    valued: bool,
) -> Result<Lowered, Refusal>
    ensures lent { Lent c.old c.new }
    ensures did { Did (end_while round body valued) c.old result c.new }
    ensures only { parts c.new ≡ record (parts c.old) { code = c.new.code; breaks = c.new.breaks; loops = c.new.loops } }
{
    emit_if_value(c, body, Op::Pop)?;
    c.emit(Op::Jump(round.top))?;
    let count = c.end_loop();
    c.patch_here_if(round.exit);
    exit_loop(c, count, valued)
}

// A `do` begins; its top is answered.
// Apart from `begin_while`: one function for both would take the test as a closure, and be no shorter.
pub fn begin_do(c: &mut Lowering, mark: Position, valued: bool) -> Result<u32, Refusal>
    ensures lent { Lent c.old c.new }
    ensures did { Did (begin_do mark valued) c.old result c.new }
    ensures only { parts c.new ≡ record (parts c.old) { code = c.new.code; loops = c.new.loops } }
{
    c.emit_at(Op::Tick, mark)?;
    let top = c.here();
    let outside = c.depth();
    c.begin_loop(top, outside, false, valued)?;
    Ok(top)
}

// The end of a `do`: the condition is tested after each round.
// The condition's position is handed in: to look it up here would ask that its record is there.
pub fn end_do(
    c: &mut Lowering,
    top: u32,
    body: Lowered,
    until: bool,
    expr: u32,
    at: Position,
    valued: bool,
) -> Result<Lowered, Refusal>
    ensures lent { Lent c.old c.new }
    ensures did { Did (end_do top body until expr at valued) c.old result c.new }
    ensures only { parts c.new ≡ record (parts c.old) { code = c.new.code; rows = c.new.rows; breaks = c.new.breaks; loops = c.new.loops } }
{
    emit_if_value(c, body, Op::Pop)?;
    let count = c.end_loop();
    expression(c, expr)?;
    round_test(c, until, at, top)?;
    exit_loop(c, count, valued)
}
