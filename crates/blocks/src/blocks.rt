// Blocks and the statements that have them: two functions that call each other, with one function between them for each
// kind of statement that has blocks.
// What the checks give is asked by each: the steps below serve unchecked scripts too, so that `Lowering` cannot hold it.

ghost use Rattle.std.specs.Prelude.{◌≡◌, ℕ, ◌+◌, ◌<◌, ◌≤◌, false, length};
ghost use Rattle.records.specs.Tree.{records, node_at, exp_of, name_of, if_any, flagged};
ghost use Rattle.records.specs.Accepts.{Sound, block_from, stmt_from};
ghost use Rattle.code.specs.declared.shapes.Lowered.TheVariants.{Empty};
ghost use Rattle.meaning.specs.Breaks.{has_break_value};
ghost use Rattle.meaning.specs.Lower.{some as some_m, choosing, looping, doing, going, trying, lower as lower_m, lower_list};
ghost use Rattle.lowering.specs.View.{Did, Lent, parts};
ghost use Rattle.blocks.specs.Whole.{inner, keeping};

use crate::guard::Deeper;
use code::{Lowered, Op};
use lowering::{Level, Lowering};
use records::{Kind, NEGATED, Refusal};
use scan::has_break_value;
use statements::{
    begin_catch, begin_do, begin_for, begin_if, begin_try, begin_while, emit_if_value, end_body,
    end_caught, end_do, end_round, end_then, end_while, loop_variable, meet, open_iterator, plain,
};

// Only the script's own block keeps the scope.
fn keeps_scope(c: &Lowering) -> bool
    ensures { result ≡ keeping (records c.now.script) c.now.block }
{
    c.script.keep && c.block.level == 0
}

// A block: the level is one deeper inside, on every way out it is put back, and slots that were added are unwound.
#[cycle(block_conditional_do_loop_for_loop_statement_statements_try_catch_while_loop)]
fn block(c: &mut Lowering, from: usize, to: usize) -> Result<Lowered, Refusal>
    requires sound { Sound (records c.old.script) }
    requires within { (to ≤ length c.old.script.nodes.now) × (c.old.block.level < from) }
    ensures lent { Lent c.old c.new }
    ensures around { c.new.block ≡ c.old.block }
    ensures limit { c.new.limit ≡ c.old.limit }
    ensures did { Did (inner (records c.old.script) from to) c.old result c.new }
{
    let outside = c.depth();
    let around = c.block;
    c.block = Level {
        level: around.level + 1,
        base: c.slots.count(),
    };
    let inside = Deeper {
        lowering: c,
        around,
    };
    let lowered = statements(inside.lowering, from, to)?;
    inside.lowering.unwind_to(outside)?;
    Ok(lowered)
}

// Statements in order: every value but the last is popped; a checkpoint stands before each where the scope is kept.
#[cycle(block_conditional_do_loop_for_loop_statement_statements_try_catch_while_loop)]
pub fn statements(c: &mut Lowering, from: usize, to: usize) -> Result<Lowered, Refusal>
    requires sound { Sound (records c.old.script) }
    requires within { (to ≤ length c.old.script.nodes.now) × (c.old.block.level ≤ from) }
    ensures lent { Lent c.old c.new }
    ensures around { c.new.block ≡ c.old.block }
    ensures limit { c.new.limit ≡ c.old.limit }
    ensures did { Did (lower_list (records c.old.script) (keeping (records c.old.script) c.old.block) Empty (block_from (records c.old.script) from to)) c.old result c.new }
{
    let keep = keeps_scope(c);
    let mut lowered = Lowered::Empty;
    let mut i = from;
    // a step goes to where a statement ends: `successors` with `take_while` would be no plainer
    while i < to {
        emit_if_value(c, lowered, Op::Pop)?;
        c.emit_if(keep, Op::Checkpoint)?;
        lowered = statement(c, i)?;
        i = c.script.nodes[i].end as usize;
    }
    Ok(lowered)
}

// The statement at a node.
#[cycle(block_conditional_do_loop_for_loop_statement_statements_try_catch_while_loop)]
fn statement(c: &mut Lowering, i: usize) -> Result<Lowered, Refusal>
    requires sound { Sound (records c.old.script) }
    requires at { (i < length c.old.script.nodes.now) × (c.old.block.level ≤ i) }
    ensures lent { Lent c.old c.new }
    ensures around { c.new.block ≡ c.old.block }
    ensures limit { c.new.limit ≡ c.old.limit }
    ensures did { Did (lower_m (records c.old.script) (stmt_from (records c.old.script) i)) c.old result c.new }
{
    let script = c.script;
    let node = script.nodes[i];
    let kind = Kind::try_from(node.kind)?;
    match kind {
        Kind::Block => block(c, i + 1, node.mid as usize),
        Kind::TryCatch => try_catch(c, i),
        Kind::For => for_loop(c, i),
        Kind::If => conditional(c, i),
        Kind::While => while_loop(c, i),
        Kind::Do => do_loop(c, i),
        _ => plain(c, kind, i),
    }
}

// `if`: the condition, the body, and the branch.
#[cycle(block_conditional_do_loop_for_loop_statement_statements_try_catch_while_loop)]
fn conditional(c: &mut Lowering, i: usize) -> Result<Lowered, Refusal>
    requires sound { Sound (records c.old.script) }
    requires at { (i < length c.old.script.nodes.now) × (c.old.block.level ≤ i) }
    requires named { (node_at (records c.old.script) i).expr < length c.old.script.exprs.now }
    ensures lent { Lent c.old c.new }
    ensures around { c.new.block ≡ c.old.block }
    ensures limit { c.new.limit ≡ c.old.limit }
    ensures did { Did (choosing (records c.old.script) (exp_of (records c.old.script) (node_at (records c.old.script) i).expr) (inner (records c.old.script) (i + 1) (node_at (records c.old.script) i).mid) (some_m (records c.old.script) (block_from (records c.old.script) (node_at (records c.old.script) i).mid (node_at (records c.old.script) i).end)) (inner (records c.old.script) (node_at (records c.old.script) i).mid (node_at (records c.old.script) i).end)) c.old result c.new }
{
    let script = c.script;
    let node = script.nodes[i];
    let (mid, end) = (node.mid as usize, node.end as usize);
    let at = script.exprs[node.expr as usize].at;
    let to_else = begin_if(c, node.expr, at)?;
    let then = block(c, i + 1, mid)?;
    let past = end_then(c, mid < end, then, to_else)?;
    let otherwise = block(c, mid, end)?;
    meet(c, then, otherwise, past)
}

// `while`: the test, the body, and back.
#[cycle(block_conditional_do_loop_for_loop_statement_statements_try_catch_while_loop)]
fn while_loop(c: &mut Lowering, i: usize) -> Result<Lowered, Refusal>
    requires sound { Sound (records c.old.script) }
    requires at { (i < length c.old.script.nodes.now) × (c.old.block.level ≤ i) }
    requires named { (node_at (records c.old.script) i).expr < length c.old.script.exprs.now }
    ensures lent { Lent c.old c.new }
    ensures around { c.new.block ≡ c.old.block }
    ensures limit { c.new.limit ≡ c.old.limit }
    ensures did { Did (looping (records c.old.script) (exp_of (records c.old.script) (node_at (records c.old.script) i).expr) (node_at (records c.old.script) i).mark (has_break_value (block_from (records c.old.script) (i + 1) (node_at (records c.old.script) i).mid)) (inner (records c.old.script) (i + 1) (node_at (records c.old.script) i).mid)) c.old result c.new }
{
    let script = c.script;
    let node = script.nodes[i];
    let mid = node.mid as usize;
    let valued = has_break_value(&script, i + 1, mid);
    let round = begin_while(c, node.expr, node.mark, valued)?;
    let body = block(c, i + 1, mid)?;
    end_while(c, round, body, valued)
}

// `do`: the body, and then the test.
#[cycle(block_conditional_do_loop_for_loop_statement_statements_try_catch_while_loop)]
fn do_loop(c: &mut Lowering, i: usize) -> Result<Lowered, Refusal>
    requires sound { Sound (records c.old.script) }
    requires at { (i < length c.old.script.nodes.now) × (c.old.block.level ≤ i) }
    requires named { (node_at (records c.old.script) i).expr < length c.old.script.exprs.now }
    ensures lent { Lent c.old c.new }
    ensures around { c.new.block ≡ c.old.block }
    ensures limit { c.new.limit ≡ c.old.limit }
    ensures did { Did (doing (records c.old.script) (flagged 4 (node_at (records c.old.script) i).flags) (exp_of (records c.old.script) (node_at (records c.old.script) i).expr) (node_at (records c.old.script) i).mark (has_break_value (block_from (records c.old.script) (i + 1) (node_at (records c.old.script) i).mid)) (inner (records c.old.script) (i + 1) (node_at (records c.old.script) i).mid)) c.old result c.new }
{
    let script = c.script;
    let node = script.nodes[i];
    let mid = node.mid as usize;
    let at = script.exprs[node.expr as usize].at;
    let until = node.flags & NEGATED != 0;
    let valued = has_break_value(&script, i + 1, mid);
    let top = begin_do(c, node.mark, valued)?;
    let body = block(c, i + 1, mid)?;
    end_do(c, top, body, until, node.expr, at, valued)
}

// `for`: the iterator, its variable, and a round for each item.
#[cycle(block_conditional_do_loop_for_loop_statement_statements_try_catch_while_loop)]
fn for_loop(c: &mut Lowering, i: usize) -> Result<Lowered, Refusal>
    requires sound { Sound (records c.old.script) }
    requires at { (i < length c.old.script.nodes.now) × (c.old.block.level ≤ i) }
    requires named { (node_at (records c.old.script) i).expr < length c.old.script.exprs.now }
    ensures lent { Lent c.old c.new }
    ensures around { c.new.block ≡ c.old.block }
    ensures limit { c.new.limit ≡ c.old.limit }
    ensures did { Did (going (records c.old.script) (name_of (records c.old.script) (node_at (records c.old.script) i).label) (exp_of (records c.old.script) (node_at (records c.old.script) i).expr) (node_at (records c.old.script) i).mark (has_break_value (block_from (records c.old.script) (i + 1) (node_at (records c.old.script) i).mid)) (inner (records c.old.script) (i + 1) (node_at (records c.old.script) i).mid)) c.old result c.new }
{
    let script = c.script;
    let node = script.nodes[i];
    let mid = node.mid as usize;
    let expr = script.exprs[node.expr as usize];
    let valued = has_break_value(&script, i + 1, mid);
    let outside = c.depth();
    open_iterator(c, node.expr, expr.start)?;
    loop_variable(c, node.label)?;
    let round = begin_for(c, expr.at, node.mark, outside, valued)?;
    let body = block(c, i + 1, mid)?;
    end_round(c, round, outside, body, valued)
}

// `try`: the body under a handler, and the catch block.
#[cycle(block_conditional_do_loop_for_loop_statement_statements_try_catch_while_loop)]
fn try_catch(c: &mut Lowering, i: usize) -> Result<Lowered, Refusal>
    requires sound { Sound (records c.old.script) }
    requires at { (i < length c.old.script.nodes.now) × (c.old.block.level ≤ i) }
    ensures lent { Lent c.old c.new }
    ensures around { c.new.block ≡ c.old.block }
    ensures limit { c.new.limit ≡ c.old.limit }
    ensures did { Did (trying (records c.old.script) (if_any (name_of (records c.old.script)) (node_at (records c.old.script) i).label) (node_at (records c.old.script) i).mark (inner (records c.old.script) (i + 1) (node_at (records c.old.script) i).mid) (inner (records c.old.script) (node_at (records c.old.script) i).mid (node_at (records c.old.script) i).end)) c.old result c.new }
{
    let script = c.script;
    let node = script.nodes[i];
    let (mid, end) = (node.mid as usize, node.end as usize);
    let site = begin_try(c, node.label, node.mark)?;
    let body = block(c, i + 1, mid)?;
    let past = end_body(c, node.label, site)?;
    let outside = begin_catch(c, node.label)?;
    let caught = block(c, mid, end)?;
    end_caught(c, outside, body, caught, past)
}
