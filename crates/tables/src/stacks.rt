// What is done to a stack.

ghost use Rattle.std.specs.Prelude.{◌≡◌, ℕ, ◌<◌, ◌≤◌, length, take, slice_index_or, slice_set, IfOk};
ghost use Rattle.meaning.specs.LowerState.{holding};
ghost use Rattle.tables.specs.Stacks.{SameLent, contents, Pushed, KeptIfErr};
ghost use Rattle.tables.specs.Distinct.{PlaceBelow};

use crate::stack::Stack;
use records::Refusal;

impl<'a, T, const MOST: usize> Stack<'a, T, MOST> {
    // How many elements it holds.
    pub fn count(&self) -> usize
        ensures { (result ≡ length (contents MOST self.now).held) × (result ≤ MOST) }
    {
        self.len
    }

    // The elements, the oldest first.
    pub fn as_slice(&self) -> &[T]
        ensures { result.now ≡ (contents MOST self.now).held }
    {
        &self.items[..self.len]
    }
}

impl<'a, T: Copy, const MOST: usize> Stack<'a, T, MOST> {
    // One more element, if there is room; its place is answered.
    pub fn push(&mut self, x: T) -> Result<usize, Refusal>
        ensures lent { SameLent MOST self.old self.new }
        ensures did { Pushed (contents MOST self.old) x result (contents MOST self.new) }
        ensures place { IfOk result (λ i. i ≡ length (contents MOST self.old).held) }
        ensures within { PlaceBelow result MOST }
        ensures kept { KeptIfErr MOST self.old result self.new }
    {
        let place = self.len;
        if place >= MOST || place >= self.items.len() {
            return Err(Refusal::NoRoom);
        }
        self.items[place] = x;
        self.len = place + 1;
        Ok(place)
    }

    // Only the oldest so many stay.
    pub fn truncate(&mut self, count: usize)
        ensures lent { SameLent MOST self.old self.new }
        ensures did { contents MOST self.new ≡ holding (take count (contents MOST self.old).held) (contents MOST self.old) }
    {
        if count < self.len {
            self.len = count;
        }
    }

    // The element at a place.
    pub fn get(&self, i: usize) -> T
        requires { i < length (contents MOST self.now).held }
        ensures { (d : T) → result ≡ slice_index_or (contents MOST self.now).held i d }
    {
        self.as_slice()[i]
    }

    // Another element at a place.
    pub fn set(&mut self, i: usize, x: T)
        requires { i < length (contents MOST self.old).held }
        ensures lent { SameLent MOST self.old self.new }
        ensures did { contents MOST self.new ≡ holding (slice_set (contents MOST self.old).held i x) (contents MOST self.old) }
    {
        self.items[i] = x;
    }
}
