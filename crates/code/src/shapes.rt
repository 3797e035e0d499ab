// What lowering keeps while it works.

// A loop that is being lowered.
#[derive(Clone, Copy, Debug, PartialEq, Eq)]
pub struct Loop {
    // where a `continue` goes
    pub continue_target: u32,
    // the slots that a `break` leaves, and those that a `continue` leaves: a `for` keeps its variable
    pub break_depth: u16,
    pub continue_depth: u16,
    // the iterators that are live inside
    pub iters: usize,
    // is one of them the loop's own?
    pub owns_iterator: bool,
    // the `try` regions around
    pub handlers: usize,
    // the places of its breaks' jumps are the newest so many of the break places
    pub breaks: usize,
    // does a `break` with a value belong to it?
    pub has_break_value: bool,
}

// What lowering a statement left on the operand stack. (By a rule of the project the original's types keep their shapes.)
#[derive(Clone, Copy, Debug, PartialEq, Eq)]
pub enum Lowered {
    // one value
    Value,
    // nothing: the statement's value is unit, or control left before its end
    Empty,
}
