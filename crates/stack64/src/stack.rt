mod moves;
mod reads;

ghost use Rattle.std.specs.Prelude.{◌≡◌, ◌≤◌, length};

// Up to 64 elements of one kind, with its own room. The kit's `ArrayVec` would ask of every kind of element a `Default`.
#[derive(Drop)]
pub struct Stack64<T: Copy> {
    // the oldest first; what lies past the height is of no account
    cells: [T; 64],
    height: usize,
    ghost within: { height ≤ 64 },
    ghost whole: { length cells ≡ 64 },
}

// There is no place for one element more: 64 are there, or fewer than are to lie above it.
#[derive(Clone, Copy, Debug, PartialEq, Eq)]
pub struct NoPlace;
