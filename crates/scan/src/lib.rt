// Which loops have a break value.
#![tactic(auto)]

ghost use Rattle.std.specs.Prelude.{◌≡◌, ℕ, ◌≤◌, ◌||◌, length};
ghost use Rattle.records.specs.Tree.{records};
ghost use Rattle.records.specs.Preorder.{ForestAt};
ghost use Rattle.records.specs.Accepts.{Sound, statements, block_from};
ghost use Rattle.meaning.specs.Breaks.{has_break_value};
ghost use Rattle.scan.specs.Scan.{loop_node, valued_break};

use records::{BREAK, Kind, Node, Script};

// Is a statement a loop?
fn is_loop(node: &Node) -> bool
    ensures { result ≡ loop_node node.now }
{
    matches!(
        Kind::try_from(node.kind),
        Ok(Kind::For | Kind::While | Kind::Do)
    )
}

// Is a statement a `break` with a value?
fn is_valued_break(node: &Node) -> bool
    ensures { result ≡ valued_break node.now }
{
    matches!(Kind::try_from(node.kind), Ok(Kind::BreakLoop))
        && node.flags & BREAK != 0
        && node.expr != 0
}

// Does a `break` with a value belong to the loop whose body is the block from one node up to before another? A loop
// inside is passed over whole, so that over a whole script each node is looked at once at most.
pub fn has_break_value(script: &Script, from: usize, to: usize) -> bool
    requires sound { Sound (records script.now) }
    requires block { (ForestAt (statements (records script.now)) (block_from (records script.now) from to) from to) × (to ≤ length script.now.nodes.now) }
    ensures { result ≡ has_break_value (block_from (records script.now) from to) }
{
    let mut i = from;
    // a step goes past a whole loop: `successors` with `take_while` would be no plainer
    while i < to {
        let node = &script.nodes[i];
        if is_valued_break(node) {
            return true;
        }
        i = if is_loop(node) {
            node.end as usize
        } else {
            i + 1
        };
    }
    false
}
