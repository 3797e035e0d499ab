ghost use Rattle.std.specs.Prelude.{◌≡◌, ◌-◌, [], length, drop};
ghost use Rattle.stack64.specs.Listed.{listed};
ghost use Rattle.stack64.specs.Moves.{Inserted, Popped, Pushed, Replaced};

use super::{NoPlace, Stack64};

impl<T: Copy> Stack64<T> {
    // No element; `blank` fills the room.
    pub fn new(blank: T) -> Stack64<T>
        ensures { listed result ≡ [] }
    {
        Stack64 {
            cells: [blank; 64],
            height: 0,
        }
    }

    // One element more, if there is room.
    pub fn push(&mut self, x: T) -> Result<(), NoPlace>
        ensures { Pushed (listed self.old) x result (listed self.new) }
    {
        if self.height == self.cells.len() {
            return Err(NoPlace);
        }
        self.cells[self.height] = x;
        self.height += 1;
        Ok(())
    }

    // Takes the newest.
    pub fn pop(&mut self) -> Option<T>
        ensures { Popped (listed self.old) result (listed self.new) }
    {
        let x = self.newest()?;
        self.height -= 1;
        Some(x)
    }

    // Puts `x` in the place of the newest, which it hands back.
    pub fn replace_newest(&mut self, x: T) -> Option<T>
        ensures { Replaced (listed self.old) x result (listed self.new) }
    {
        let newest = self.newest()?;
        self.cells[self.height - 1] = x;
        Some(newest)
    }

    // Keeps the oldest `n`.
    pub fn truncate(&mut self, n: usize)
        ensures { listed self.new ≡ drop (length (listed self.old) - n) (listed self.old) }
    {
        self.height = self.height.min(n);
    }

    // One element more, below the newest `n`, if there are so many and there is room.
    pub fn insert(&mut self, n: usize, x: T) -> Result<(), NoPlace>
        ensures { Inserted n (listed self.old) x result (listed self.new) }
    {
        if n > self.height {
            return Err(NoPlace);
        }
        let i = self.height - n;
        self.push(x)?;
        let cells = &mut self.cells[..];
        cells[i..self.height].rotate_right(1);
        Ok(())
    }
}
