// A stack searched for an element that is the same as another, and a table without repeats.

ghost use Rattle.std.specs.Prelude.{◌≡◌, None};
ghost use Rattle.meaning.specs.LowerState.{first_same, newest_same};
ghost use Rattle.tables.specs.Stacks.{SameLent, KeptIfErr, contents};
ghost use Rattle.tables.specs.Distinct.{EnteredAs, Below, PlaceBelow};

use crate::same::Same;
use crate::stack::Stack;
use records::Refusal;

// Two searches: each is one call of the library, and a direction to choose by would be one thing more.

// The place of the newest element that is the same as `x`.
pub fn newest<C, T: Same<C>, const MOST: usize>(
    stack: &Stack<T, MOST>,
    x: &T,
    context: &C,
) -> Option<usize>
    ensures is { result ≡ newest_same (T.Same.alike context.now) x.now 0 None (contents MOST stack.now).held }
    ensures within { Below result MOST }
{
    stack.as_slice().iter().rposition(|y| y.same(x, context))
}

// The place of the first element that is the same as `x`.
pub fn first<C, T: Same<C>, const MOST: usize>(
    stack: &Stack<T, MOST>,
    x: &T,
    context: &C,
) -> Option<usize>
    ensures is { result ≡ first_same (T.Same.alike context.now) x.now 0 (contents MOST stack.now).held }
    ensures within { Below result MOST }
{
    stack.as_slice().iter().position(|y| y.same(x, context))
}

// The place of the first element that is the same as `x`; if there is none, `x` is pushed.
pub fn enter<C, T: Same<C> + Copy, const MOST: usize>(
    table: &mut Stack<T, MOST>,
    x: T,
    context: &C,
) -> Result<usize, Refusal>
    ensures lent { SameLent MOST table.old table.new }
    ensures did { EnteredAs (first_same (T.Same.alike context.now) x 0 (contents MOST table.old).held) x (contents MOST table.old) result (contents MOST table.new) }
    ensures within { PlaceBelow result MOST }
    ensures kept { KeptIfErr MOST table.old result table.new }
{
    match first(table, &x, context) {
        Some(place) => Ok(place),
        None => table.push(x),
    }
}
