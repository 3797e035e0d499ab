// What a player asks, and what it is answered.
use records::Position;

#[derive(Clone, Copy, Debug, PartialEq, Eq)]
pub enum Question {
    // 1: the value of an expression
    Expression(u32),
    // 2: the value of a whole statement, by its node
    Statement(u32),
    // 3: the handle of a name that has no live slot
    Name(u32),
    // 4: what an operator row makes of the old handle and the new one
    Combine {
        row: u32,
        old: u64,
        new: u64,
    },
    // 5: assign the new handle to a name that has no slot, under an operator row or none
    Assign {
        name: u32,
        row: Option<u32>,
        new: u64,
    },
    // 6: an iterator over a handle
    Iterate(u64),
    // 7: the next item of an iterator
    Next(u64),
}

#[derive(Clone, Copy, Debug, PartialEq, Eq)]
pub enum Answer {
    Value(u64),
    Done,
    Fault { handle: u64, at: Position },
}

// How a script ends. (Not a Result: a fault is a lawful end, which `?` would hand on as a failure.)
#[derive(Clone, Copy, Debug, PartialEq, Eq)]
pub enum End {
    Value(u64),
    Fault { handle: u64, at: Position },
}

// What an answer is for.
#[derive(Clone, Copy, Debug, PartialEq, Eq)]
pub enum Purpose {
    // it is pushed
    Push,
    // it is stored into a slot
    Store(u16),
    // it says that an assignment was made
    Assigned,
    // it is the iterator to open
    Open,
    // it is the next item, or the iterator is at its end and the player goes to a place
    Advance(u32),
}

// A live variable of the player.
#[derive(Clone, Copy, Debug, Default, PartialEq, Eq)]
pub struct Slot {
    pub name: u32,
    pub handle: u64,
    pub constant: bool,
}

// A `try` that the player is inside of: armed in its body, not armed in its catch block; where to go, the catch
// name, and the heights to go back to.
#[derive(Clone, Copy, Debug, Default, PartialEq, Eq)]
pub struct Handler {
    pub armed: bool,
    pub target: u32,
    pub name: Option<u32>,
    pub values: usize,
    pub slots: usize,
    pub iters: usize,
}
