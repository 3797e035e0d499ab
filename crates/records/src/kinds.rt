// The numbers that records use, each at this one place.

// What a statement is, by its number from 1.
#[derive(Clone, Copy, Debug, PartialEq, Eq)]
pub enum Kind {
    Noop,
    Var,
    Expr,
    FnCall,
    Assignment,
    Block,
    TryCatch,
    For,
    If,
    While,
    Do,
    BreakLoop,
    Return,
}

// What an expression is, by its number from 1.
#[derive(Clone, Copy, Debug, PartialEq, Eq)]
pub enum Form {
    Unit,
    True,
    Opaque,
    False,
    Name,
    AllOf,
    AnyOf,
}

// What stands on the left of an assignment, by its number from 1.
#[derive(Clone, Copy, Debug, PartialEq, Eq)]
pub enum Target {
    Variable,
    Access,
    Other,
}

// A number that stands for no kind, form or target.
#[derive(Clone, Copy, Debug, PartialEq, Eq)]
pub struct UnknownNumber(pub u32);

// Flags of a statement.
pub const CONSTANT: u32 = 1;

pub const EXPORTED: u32 = 2;

pub const NEGATED: u32 = 4;

pub const BREAK: u32 = 8;

// The most statements that may stand around another one that has blocks.
pub const DEEPEST: usize = 64;

// The most records of each sort, and the largest slot limit.
pub const MOST_NODES: usize = 1_048_576;

pub const MOST_EXPRS: usize = 1_048_576;

pub const MOST_BYTES: usize = 1_048_576;

pub const MOST_LABELS: usize = 65_536;

pub const MOST_OPERATORS: usize = 4_096;

pub const MOST_SLOTS: u32 = 65_535;
