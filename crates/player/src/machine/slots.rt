ghost use Rattle.std.specs.Prelude.{◌≡◌, ◌<◌, ◌≤◌, length};
ghost use Rattle.meaning.specs.Machine.{cut, newest, put};
ghost use Rattle.player.specs.Players.{Declared, Got, Slotted, locals};

use super::Player;
use crate::kinds::Stuck;
use code::Slot;
use slot_memory::find;

#[tactic(auto, unfolding(crate::specs::Players::held))]
impl<'a> Player<'a> {
    // One slot more, if there is room.
    pub fn declare_slot(&mut self, slot: Slot) -> Result<(), Stuck>
        ensures { Declared self.old slot result self.new }
    {
        if self.live == self.slots.len() {
            return Err(Stuck);
        }
        self.slots[self.live] = slot;
        self.live += 1;
        Ok(())
    }

    // Keeps the oldest `n`.
    pub fn cut_slots(&mut self, n: usize)
        requires { n ≤ length (locals self.old).live }
        ensures { Slotted self.old self.new (cut n (locals self.old)) }
    {
        self.live = n;
    }

    pub fn live_slots(&self) -> usize
        ensures { result ≡ length (locals self.now).live }
    {
        self.live
    }

    pub fn slot(&self, i: usize) -> Option<Slot>
        ensures { Got i (locals self.now).live result }
    {
        self.slots[..self.live].get(i).copied()
    }

    pub fn set_slot(&mut self, i: usize, slot: Slot)
        requires { i < length (locals self.old).live }
        ensures { Slotted self.old self.new (put i slot (locals self.old)) }
    {
        self.slots[i] = slot;
    }

    // The place of the newest slot of a name.
    pub fn find_slot(&self, name: u32) -> Option<usize>
        ensures { result ≡ newest name (locals self.now).live }
    {
        find(&self.slots[..self.live], name)
    }
}
