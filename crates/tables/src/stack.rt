ghost use Rattle.std.specs.Prelude.{◌≤◌, length};

// A bounded stack over memory that is lent: it holds the first `len` items, newest last, and never more than `MOST`.
// (No `Vec`: the memory is fixed and the caller's.)
#[derive(Drop)]
pub struct Stack<'a, T, const MOST: usize> {
    pub items: &'a mut [T],
    pub len: usize,
    ghost within: { len ≤ length items.now },
    ghost bounded: { len ≤ MOST },
}
