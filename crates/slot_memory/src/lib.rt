// Slot memory: does it suffice, the newest slot of a name, and blanking.
#![tactic(auto)]

ghost use Rattle.meaning.specs.Calls.{fits};
ghost use Rattle.meaning.specs.Machine.{newest};
ghost use Rattle.slot_memory.specs.Memory.{blank_slot, refusal_of};
ghost use Rattle.std.specs.Prelude.{◌≡◌, length, replicate};

use code::Slot;
use records::Refusal;

// Does slot memory hold the deepest slot count?
pub fn fits(slots: &[Slot], deepest: usize) -> Result<(), Refusal>
    ensures { refusal_of result ≡ fits (length slots.now) deepest }
{
    if deepest > slots.len() {
        Err(Refusal::SlotMemory)
    } else {
        Ok(())
    }
}

// The place of the newest slot of a name: the last.
pub fn find(slots: &[Slot], name: u32) -> Option<usize>
    ensures { result ≡ newest name slots.now }
{
    slots.iter().rposition(|slot| slot.name == name)
}

// Every slot holds nothing from now on.
pub fn blank(slots: &mut [Slot])
    ensures { slots.new ≡ replicate (length slots.old) blank_slot }
{
    slots.fill(Slot::default());
}
