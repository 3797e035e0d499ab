// Declarations and assignments.

ghost use Rattle.std.specs.Prelude.{◌≡◌, ◌<◌, length, ◌≢◌};
ghost use Rattle.records.specs.Tree.{records, if_any, name_of, exp_of, oper_of, flagged};
ghost use Rattle.meaning.specs.Lower.{reuses, storing as storing_m, declaring as declaring_m, variable as variable_m, oper_row, assigned, assigning as assigning_m};
ghost use Rattle.lowering.specs.View.{Did, Lent, level_of, parts};

use crate::fields::{has_flag, present};
use crate::rows::expression;
use code::{AssignOp, Lowered, Op};
use lowering::{Level, Lowering};
use records::{CONSTANT, Node, Refusal};

// A reuse index counts back from the live slots; it must name the newest slot of its name, declared in this block.
fn may_reuse(live: usize, index: usize, level: &Level, slot: Option<u16>) -> bool
    ensures { result ≡ reuses live index (level_of level.now) slot }
{
    slot.is_some_and(|slot| {
        let slot = usize::from(slot);
        index <= live && slot == live - index && level.base <= slot
    })
}

// A new value for a slot of this block.
#[tactic(auto, unfolding(lowering::specs::View::low, meaning::specs::LowerState::the_block))]
fn storing(c: &mut Lowering, label: u32, index: u32, constant: bool) -> Result<(), Refusal>
    ensures lent { Lent c.old c.new }
    ensures did { Did (storing_m (records c.old.script) (name_of (records c.old.script) label) index constant) c.old result c.new }
    ensures only { parts c.new ≡ record (parts c.old) { code = c.new.code } }
{
    let live = usize::from(c.depth());
    let index = index as usize;
    if !may_reuse(live, index, &c.block, c.resolve(label)) {
        return Err(Refusal::BadReuse);
    }
    c.emit(Op::StoreLocal {
        slot: (live - index) as u16,
        is_const: constant,
    })?;
    Ok(())
}

// A new slot: global if it is a constant at level 0.
#[tactic(auto, unfolding(lowering::specs::View::low, meaning::specs::LowerState::the_block))]
fn declaring(c: &mut Lowering, label: u32, constant: bool) -> Result<(), Refusal>
    ensures lent { Lent c.old c.new }
    ensures did { Did (declaring_m (records c.old.script) (name_of (records c.old.script) label) constant) c.old result c.new }
    ensures only { parts c.new ≡ record (parts c.old) { code = c.new.code; names = c.new.names; slots = c.new.slots; deepest = c.new.deepest } }
{
    let name = c.push_name(label)?;
    c.declare(label)?;
    c.emit(Op::DeclareLocal {
        name,
        is_const: constant,
        is_global: constant && c.block.level == 0,
    })?;
    Ok(())
}

// `let` and `const`: the slot limit comes first, reuse or not.
pub fn variable(c: &mut Lowering, node: &Node) -> Result<Lowered, Refusal>
    ensures lent { Lent c.old c.new }
    ensures did { Did (variable_m (records c.old.script) (flagged 1 node.now.flags) (name_of (records c.old.script) node.now.label) (exp_of (records c.old.script) node.now.expr) node.now.reuse) c.old result c.new }
    ensures only { parts c.new ≡ record (parts c.old) { code = c.new.code; rows = c.new.rows; names = c.new.names; slots = c.new.slots; deepest = c.new.deepest } }
{
    let constant = has_flag(node.flags, CONSTANT);
    c.may_declare()?;
    expression(c, node.expr)?;
    if node.reuse == 0 {
        declaring(c, node.label, constant)?;
    } else {
        storing(c, node.label, node.reuse, constant)?;
    }
    Ok(Lowered::Empty)
}

// An operator row, its two names first.
pub fn operator_row(c: &mut Lowering, operator: u32) -> Result<Option<u32>, Refusal>
    requires { (operator ≢ 0) → operator < length c.old.script.operators.now }
    ensures lent { Lent c.old c.new }
    ensures did { Did (oper_row (records c.old.script) (if_any (oper_of (records c.old.script)) operator)) c.old result c.new }
    ensures only { parts c.new ≡ record (parts c.old) { names = c.new.names; operators = c.new.operators } }
{
    let Some(operator) = present(operator) else {
        return Ok(None);
    };
    let symbols = c.script.operators[operator as usize];
    let op_assign_name = c.push_name(symbols.compound.label)?;
    let op_name = c.push_name(symbols.binary.label)?;
    let row = c.push_assign_op(AssignOp {
        op_assign: symbols.compound.token,
        op_assign_name,
        op: symbols.binary.token,
        op_name,
    })?;
    Ok(Some(row))
}

// A local takes the operator's position, any other name its own.
fn assign_to(
    c: &mut Lowering,
    slot: Option<u16>,
    name: u32,
    op: Option<u32>,
    node: &Node,
) -> Result<(), Refusal>
    ensures lent { Lent c.old c.new }
    ensures did { Did (assigned slot name op node.now.at node.now.mark) c.old result c.new }
    ensures only { parts c.new ≡ record (parts c.old) { code = c.new.code } }
{
    match slot {
        Some(slot) => c.emit_at(
            Op::AssignLocal {
                slot,
                var_name: name,
                op,
            },
            node.at,
        )?,
        None => c.emit_at(Op::AssignNamed { name, op }, node.mark)?,
    };
    Ok(())
}

// An assignment to a plain variable.
pub fn assigning(c: &mut Lowering, node: &Node) -> Result<Lowered, Refusal>
    requires { (node.now.operator ≢ 0) → node.now.operator < length c.old.script.operators.now }
    ensures lent { Lent c.old c.new }
    ensures did { Did (assigning_m (records c.old.script) (name_of (records c.old.script) node.now.label) (exp_of (records c.old.script) node.now.expr) (if_any (oper_of (records c.old.script)) node.now.operator) node.now.at node.now.mark) c.old result c.new }
    ensures only { parts c.new ≡ record (parts c.old) { code = c.new.code; rows = c.new.rows; names = c.new.names; operators = c.new.operators } }
{
    let slot = c.resolve(node.label);
    let name = c.push_name(node.label)?;
    expression(c, node.expr)?;
    let op = operator_row(c, node.operator)?;
    assign_to(c, slot, name, op, node)?;
    Ok(Lowered::Empty)
}
