ghost use Rattle.std.specs.Prelude.{◌≡◌, ◌<◌, length};
ghost use Rattle.meaning.specs.Calls.{after, landed, plays, step, told};
ghost use Rattle.meaning.specs.Throws.{catches};
ghost use Rattle.player.specs.Players.{Kept, effect, mach};
ghost use Rattle.player.specs.Replies.{outcome_of};
ghost use Rattle.player.specs.States.{state};

use super::Player;
use crate::kinds::{Flow, Mode, Outcome, Stuck};
use code::End;
use records::Position;

impl<'a> Player<'a> {
    // Goes on as an operation or an answer has it.
    pub fn settle(&mut self, flow: Result<Flow, Stuck>)
        requires { self.old.place < length self.old.code.now }
        ensures kept { Kept self.old self.new }
        ensures did { state self.new ≡ after (effect flow (mach self.old)) self.old.place }
    {
        match flow {
            Ok(Flow::Next) => {
                self.place += 1;
                self.mode = Mode::Ready;
            }
            Ok(Flow::Goto(target)) => {
                self.place = target as usize;
                self.mode = Mode::Ready;
            }
            Ok(Flow::Ask(question, purpose)) => self.mode = Mode::Waiting(question, purpose),
            Ok(Flow::Fault { handle, at }) => self.land(handle, at),
            Ok(Flow::Give(handle)) => self.mode = Mode::Ended(End::Value(handle)),
            Err(Stuck) => self.mode = Mode::Stuck,
        }
    }

    // A throw.
    fn land(&mut self, handle: u64, at: Position)
        ensures kept { Kept self.old self.new }
        ensures did { state self.new ≡ landed (catches handle at (mach self.old)) }
    {
        match self.catch(handle, at) {
            Ok(Flow::Goto(target)) => {
                self.place = target as usize;
                self.mode = Mode::Ready;
            }
            Ok(Flow::Fault { handle, at }) => self.mode = Mode::Ended(End::Fault { handle, at }),
            _ => self.mode = Mode::Stuck,
        }
    }

    // The operation at the player's place.
    fn step(&mut self)
        ensures kept { Kept self.old self.new }
        ensures did { state self.new ≡ step self.old.code.now self.old.rows.now self.old.place (mach self.old) }
    {
        let Some(instr) = self.code.get(self.place) else {
            self.mode = Mode::Stuck;
            return;
        };
        let flow = self.exec(instr.op, instr.at);
        self.settle(flow);
    }

    // Up to so many operations.
    pub fn play(&mut self, limit: u32) -> Outcome
        requires { self.old.mode ≡ Mode.Ready }
        ensures kept { Kept self.old self.new }
        ensures did { told (outcome_of result) (state self.new) ≡ plays self.old.code.now self.old.rows.now limit 0 self.old.place (mach self.old) }
    {
        for n in 0..limit {
            self.step();
            match self.mode {
                Mode::Ready => {}
                Mode::Waiting(question, _) => return Outcome::Asks(n + 1, question),
                Mode::Ended(end) => return Outcome::Ended(n + 1, end),
                Mode::Stuck => return Outcome::Stuck(n + 1),
            }
        }
        Outcome::Spent(limit)
    }
}
