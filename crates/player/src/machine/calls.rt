ghost use Rattle.meaning.specs.Calls.{Reply.found, answers, does, loaded, looks, puts, runs, told};
ghost use Rattle.slot_memory.specs.Memory.{blank_slot};
ghost use Rattle.player.specs.Replies.{answered_of, call_of, outcome_of, reply_of, result_of, suits, written_of};
ghost use Rattle.player.specs.Players.{Kept};
ghost use Rattle.player.specs.States.{Tied, state};
ghost use Rattle.std.specs.Prelude.{◌≡◌, true, length, replicate};

use super::Player;
use super::settling::accepts;
use crate::kinds::{Answered, Call, Mode, Outcome, Reply};
use code::{Answer, Handler, Instr, Row, Slot};
use records::Refusal;
use slot_memory::blank;
use stack64::Stack64;

// So many steps at most take place in one run.
const MOST_STEPS: u32 = 1_000_000;

impl<'a> Player<'a> {
    // A player at the first operation, no slot live.
    pub fn load(code: &'a [Instr], rows: &'a [Row], names: u32, slots: &'a mut [Slot]) -> Player<'a>
        ensures lent { Tied result.slots slots.entry }
        ensures holds { (result.code ≡ code.entry) × ((result.rows ≡ rows.entry) × (result.names ≡ names)) }
        ensures starts { state result ≡ loaded (length slots.old) }
    {
        Player {
            slots,
            code,
            rows,
            names,
            place: 0,
            mode: Mode::Ready,
            values: Stack64::new(0),
            iters: Stack64::new(0),
            handlers: Stack64::new(Handler::default()),
            live: 0,
        }
    }

    // State and call together decide what happens; a call that is declined changes nothing. By a rule of the project they are
    // matched together, for run, answer and put: those take the reply apart.
    pub fn perform(&mut self, call: Call) -> Reply
        ensures kept { Kept self.old self.new }
        ensures did { told (reply_of result) (state self.new) ≡ does self.old.code.now self.old.rows.now self.old.names (call_of call) (state self.old) }
        ensures suits { suits call result ≡ true }
    {
        match (self.mode, call) {
            (_, Call::Look(name)) => self.look(name).map_or_else(Reply::Declined, Reply::Found),
            (Mode::Ended(_) | Mode::Stuck, _) => Reply::Declined(Refusal::Over),
            (Mode::Waiting(_, _), Call::Run(_)) => Reply::Declined(Refusal::QuestionWaits),
            (Mode::Ready, Call::Answer(_) | Call::Put { .. }) => Reply::Declined(
                Refusal::NoneWaits,
            ),
            (Mode::Ready, Call::Run(limit)) if (1..=MOST_STEPS).contains(&limit) => {
                Reply::Ran(self.play(limit))
            }
            (Mode::Waiting(_, purpose), Call::Answer(answer)) if accepts(purpose, answer) => {
                Reply::Answered(self.take(purpose, answer))
            }
            (Mode::Waiting(_, _), Call::Put { name, handle }) if name < self.names => self
                .rewrite(name, handle)
                .map_or_else(Reply::Declined, |()| Reply::Written),
            _ => Reply::Declined(Refusal::WrongCall),
        }
    }

    // At most so many operations, up to a question or an end.
    pub fn run(&mut self, limit: u32) -> Result<Outcome, Refusal>
        ensures kept { Kept self.old self.new }
        ensures did { told (result_of outcome_of result) (state self.new) ≡ runs self.old.code.now self.old.rows.now limit (state self.old) }
    {
        match self.perform(Call::Run(limit)) {
            Reply::Ran(outcome) => Ok(outcome),
            Reply::Declined(why) => Err(why),
            // a call is answered by a reply that suits it
            _ => unreachable(),
        }
    }

    // Takes the answer to the question that waits.
    pub fn answer(&mut self, answer: Answer) -> Result<Answered, Refusal>
        ensures kept { Kept self.old self.new }
        ensures did { told (result_of answered_of result) (state self.new) ≡ answers answer (state self.old) }
    {
        match self.perform(Call::Answer(answer)) {
            Reply::Answered(answered) => Ok(answered),
            Reply::Declined(why) => Err(why),
            // a call is answered by a reply that suits it
            _ => unreachable(),
        }
    }

    // The handle of a name's newest live slot.
    pub fn look(&self, name: u32) -> Result<Option<u64>, Refusal>
        ensures { told (result_of found result) (state self.now) ≡ looks self.now.names name (state self.now) }
    {
        if matches!(self.mode, Mode::Ended(_) | Mode::Stuck) {
            return Err(Refusal::Over);
        }
        if name >= self.names {
            return Err(Refusal::WrongCall);
        }
        Ok(self.seen(name))
    }

    // Another handle for a name's newest live slot, while a question waits.
    pub fn put(&mut self, name: u32, handle: u64) -> Result<(), Refusal>
        ensures kept { Kept self.old self.new }
        ensures did { told (result_of written_of result) (state self.new) ≡ puts self.old.names name handle (state self.old) }
    {
        match self.perform(Call::Put { name, handle }) {
            Reply::Written => Ok(()),
            Reply::Declined(why) => Err(why),
            // a call is answered by a reply that suits it
            _ => unreachable(),
        }
    }

    // Gives the slot memory back, blank.
    pub fn close(self)
        ensures { self.exit.0.now ≡ replicate (length self.entry.slots.now) blank_slot }
    {
        let Player { slots, .. } = self;
        blank(slots);
    }
}
