// Slots: the names of the live variables, by labels.

ghost use Rattle.std.specs.Prelude.{◌≡◌, Ok, OnErr};
ghost use Rattle.records.specs.Tree.{records};
ghost use Rattle.meaning.specs.LowerState.{depth as depth_m, may_declare, declare as declare_m, drop_slots, resolve as resolve_m};
ghost use Rattle.meaning.specs.Lower.{unwind_to};
ghost use Rattle.tables.specs.Stacks.{contents};
ghost use Rattle.lowering.specs.Fit.{most_slots};
ghost use Rattle.lowering.specs.View.{Did, Lent, Saw, parts};

use crate::state::{Lowering, Slots};
use crate::words::Spelling;
use code::Op;
use records::{Refusal, Script};
use tables::newest;

// How many slots are live: the depth that a block unwinds to.
pub fn depth(slots: &Slots) -> u16
    ensures { Saw depth_m (contents most_slots slots.now) (Ok result) }
{
    slots.count() as u16
}

// The newest slot of a name.
pub fn resolve(slots: &Slots, script: &Script, label: u32) -> Option<u16>
    ensures { Saw (resolve_m (records script.now) label) (contents most_slots slots.now) (Ok result) }
{
    let slot = newest(slots, &label, &Spelling(*script))?;
    Some(slot as u16)
}

impl Lowering<'_, '_, '_, '_, '_, '_, '_, '_, '_, '_, '_, '_, '_> {
    pub fn depth(&self) -> u16
        ensures { Did depth_m self.now (Ok result) self.now }
    {
        depth(&*self.slots)
    }

    pub fn resolve(&self, label: u32) -> Option<u16>
        ensures { Did (resolve_m (records self.now.script) label) self.now (Ok result) self.now }
    {
        resolve(&*self.slots, &self.script, label)
    }

    // Slots at the limit are refused.
    pub fn may_declare(&self) -> Result<(), Refusal>
        ensures { Did may_declare self.now result self.now }
    {
        if self.slots.count() < self.limit {
            Ok(())
        } else {
            Err(Refusal::SlotsFull)
        }
    }

    // One slot more.
    pub fn declare(&mut self, label: u32) -> Result<(), Refusal>
        ensures lent { Lent self.old self.new }
        ensures did { Did (declare_m label) self.old result self.new }
        ensures only { parts self.new ≡ record (parts self.old) { slots = self.new.slots; deepest = self.new.deepest } }
        ensures kept { OnErr result (parts self.new ≡ parts self.old) }
    {
        self.slots.push(label)?;
        self.deepest = self.deepest.max(self.slots.count());
        Ok(())
    }

    // Only the oldest so many slots stay.
    pub fn drop_slots(&mut self, depth: u16)
        ensures lent { Lent self.old self.new }
        ensures did { Did (drop_slots depth) self.old (Ok result) self.new }
        ensures only { parts self.new ≡ record (parts self.old) { slots = self.new.slots; deepest = self.new.deepest } }
    {
        self.slots.truncate(depth as usize);
        self.deepest = self.deepest.max(self.slots.count());
    }

    // Slots past a depth are dropped, by an operation, if there are any.
    pub fn unwind_to(&mut self, to: u16) -> Result<(), Refusal>
        ensures lent { Lent self.old self.new }
        ensures did { Did (unwind_to to) self.old result self.new }
        ensures only { parts self.new ≡ record (parts self.old) { code = self.new.code; slots = self.new.slots; deepest = self.new.deepest } }
    {
        if self.depth() > to {
            self.emit(Op::UnwindTo(to))?;
            self.drop_slots(to);
        }
        Ok(())
    }
}
