ghost use Rattle.stack64.specs.Listed.{listed};
ghost use Rattle.stack64.specs.Moves.{Newest};
ghost use Rattle.std.specs.Prelude.{◌≡◌, ◌==◌, length, nat_le, reverse};

use super::Stack64;

impl<T: Copy> Stack64<T> {
    pub fn len(&self) -> usize
        ensures { result ≡ length (listed self.now) }
    {
        self.height
    }

    pub fn is_empty(&self) -> bool
        ensures { result ≡ (length (listed self.now) == 0) }
    {
        self.len() == 0
    }

    pub fn is_full(&self) -> bool
        ensures { result ≡ nat_le 64 (length (listed self.now)) }
    {
        self.len() >= 64
    }

    // The newest, which stays.
    pub fn newest(&self) -> Option<T>
        ensures { Newest (listed self.now) result }
    {
        self.cells[..self.height].last().copied()
    }

    // The elements, the oldest first.
    pub fn as_slice(&self) -> &[T]
        ensures { result.now ≡ reverse (listed self.now) }
    {
        &self.cells[..self.height]
    }
}
