use code::{Answer, End, Purpose, Question};
use records::{Position, Refusal, UnknownNumber};
use stack64::NoPlace;

// What a player is about.
#[derive(Clone, Copy, Debug, PartialEq, Eq)]
pub enum Mode {
    // to take the operation at its place
    Ready,
    // a question waits, and what its answer is for
    Waiting(Question, Purpose),
    Ended(End),
    Stuck,
}

// What an operation or an answer comes to, unless the player is stuck.
#[derive(Clone, Copy, Debug, PartialEq, Eq)]
pub enum Flow {
    Next,
    Goto(u32),
    Ask(Question, Purpose),
    Fault { handle: u64, at: Position },
    Give(u64),
}

// The code is not fit to be played on: an item is missing, a table is full, or a number means nothing.
#[derive(Clone, Copy, Debug, PartialEq, Eq)]
pub struct Stuck;

impl From<NoPlace> for Stuck {
    fn from(_full: NoPlace) -> Stuck {
        Stuck
    }
}

impl From<UnknownNumber> for Stuck {
    fn from(_number: UnknownNumber) -> Stuck {
        Stuck
    }
}

#[derive(Clone, Copy, Debug, PartialEq, Eq)]
pub enum Call {
    // at most so many steps
    Run(u32),
    Answer(Answer),
    // a name by its number
    Look(u32),
    Put { name: u32, handle: u64 },
}

// What a run tells, with its count of steps.
#[derive(Clone, Copy, Debug, PartialEq, Eq)]
pub enum Outcome {
    Spent(u32),
    Asks(u32, Question),
    Ended(u32, End),
    Stuck(u32),
}

// What taking an answer led to.
#[derive(Clone, Copy, Debug, PartialEq, Eq)]
pub enum Answered {
    // the script goes on
    Taken,
    // a fault that no handler catches
    Ended(End),
    Stuck,
}

// (A decline is a reply like the others: a replay records them all in one list.)
#[derive(Clone, Copy, Debug, PartialEq, Eq)]
pub enum Reply {
    Ran(Outcome),
    Answered(Answered),
    Found(Option<u64>),
    Written,
    Declined(Refusal),
}
