ghost use Rattle.std.specs.Prelude.{◌≡◌, ◌<◌, length};
ghost use Rattle.meaning.specs.Calls.{after, answered, handle_of, lookup, overwritten, told};
ghost use Rattle.meaning.specs.Machine.{resume, takes};
ghost use Rattle.player.specs.Players.{Kept, Wrote, locals, mach};
ghost use Rattle.player.specs.Replies.{answered_of};
ghost use Rattle.player.specs.States.{state};

use super::Player;
use crate::kinds::{Answered, Mode};
use code::{Answer, Purpose, Slot};
use records::Refusal;

// Does an answer suit what it is for?
pub fn accepts(purpose: Purpose, answer: Answer) -> bool
    ensures { result ≡ takes purpose answer }
{
    match answer {
        Answer::Fault { .. } => true,
        Answer::Value(_) => !matches!(purpose, Purpose::Assigned),
        Answer::Done => matches!(purpose, Purpose::Assigned | Purpose::Advance(_)),
    }
}

impl<'a> Player<'a> {
    // An answer that suits takes effect at once.
    pub fn take(&mut self, purpose: Purpose, answer: Answer) -> Answered
        requires { self.old.place < length self.old.code.now }
        ensures kept { Kept self.old self.new }
        ensures did { told (answered_of result) (state self.new) ≡ answered (after (resume purpose answer (mach self.old)) self.old.place) }
    {
        let flow = self.resume(purpose, answer);
        self.settle(flow);
        match self.mode {
            Mode::Ready | Mode::Waiting(_, _) => Answered::Taken,
            Mode::Ended(end) => Answered::Ended(end),
            Mode::Stuck => Answered::Stuck,
        }
    }

    // The handle of a name's newest live slot.
    pub fn seen(&self, name: u32) -> Option<u64>
        ensures { result ≡ handle_of (lookup name (locals self.now).live) }
    {
        let i = self.find_slot(name)?;
        let slot = self.slot(i)?;
        Some(slot.handle)
    }

    // Another handle in a name's newest live slot, unless that is constant.
    pub fn rewrite(&mut self, name: u32, handle: u64) -> Result<(), Refusal>
        ensures { Wrote (overwritten name handle (locals self.old)) self.old result self.new }
    {
        let i = self.find_slot(name).ok_or(Refusal::NotSettable)?;
        let slot = self.slot(i).ok_or(Refusal::NotSettable)?;
        if slot.constant {
            return Err(Refusal::NotSettable);
        }
        self.set_slot(i, Slot { handle, ..slot });
        Ok(())
    }
}
