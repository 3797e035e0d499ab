// A statement that has no blocks, by its kind.

ghost use Rattle.std.specs.Prelude.{◌≡◌, ◌<◌, Bool, false, length, Some};
ghost use Rattle.records.specs.Tree.{records, node_at, head_of};
ghost use Rattle.records.specs.Meanings.{kind_of, has_body};
ghost use Rattle.records.specs.Accepts.{Sound};
ghost use Rattle.code.specs.declared.shapes.Lowered.{Lowered as LoweredAs};
ghost use Rattle.meaning.specs.LowerState.{M as Rule};
ghost use Rattle.meaning.specs.Lower.{lower_head};
ghost use Rattle.lowering.specs.View.{Did, Lent, parts};

use crate::fields::has_flag;
use crate::leaves::{breaking, calling, continuing, returning, throwing};
use crate::rows::{expression, statement_row};
use crate::variables::{assigning, variable};
use code::Lowered;
use lowering::Lowering;
use records::{BREAK, Kind, Refusal, Target};

// The statement at a node, of a kind that has no blocks: by the rule for its head, whatever blocks stand there.
pub fn plain(c: &mut Lowering, kind: Kind, i: usize) -> Result<Lowered, Refusal>
    requires sound { Sound (records c.old.script) }
    requires at { (i < length c.old.script.nodes.now) × ((kind_of (node_at (records c.old.script) i).kind ≡ Some kind) × (has_body kind ≡ false)) }
    ensures lent { Lent c.old c.new }
    ensures did { (body branch : Rule LoweredAs) (has hasv : Bool) → Did (lower_head (records c.old.script) (head_of (records c.old.script) i) body branch has hasv) c.old result c.new }
    ensures only { parts c.new ≡ record (parts c.old) { code = c.new.code; rows = c.new.rows; names = c.new.names; operators = c.new.operators; slots = c.new.slots; deepest = c.new.deepest; breaks = c.new.breaks; loops = c.new.loops } }
{
    let node = c.script.nodes[i];
    let has_break = has_flag(node.flags, BREAK);
    match kind {
        Kind::Var => variable(c, &node),
        Kind::Expr => {
            expression(c, node.expr)?;
            Ok(Lowered::Value)
        }
        Kind::FnCall => calling(c, node.label, i as u32),
        Kind::Assignment => match Target::try_from(node.target) {
            Ok(Target::Variable) => assigning(c, &node),
            // any other target is left to the whole statement
            _ => statement_row(c, i as u32),
        },
        Kind::BreakLoop if has_break => breaking(c, node.expr),
        Kind::BreakLoop => continuing(c),
        Kind::Return if has_break => throwing(c, node.expr, node.at),
        Kind::Return => returning(c, node.expr),
        _ => Ok(Lowered::Empty),
    }
}
