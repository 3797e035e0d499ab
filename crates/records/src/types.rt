// The records of a script: what a station's parser hands over, as plain numbers that nothing has checked yet.

// A place in the source: line and column; (0, 0) is none.
#[derive(Clone, Copy, Debug, Default, PartialEq, Eq)]
pub struct Position {
    pub line: u16,
    pub column: u16,
}

impl Position {
    // The position that is none.
    pub const NONE: Position = Position { line: 0, column: 0 };
}

// A name: so many bytes of the text, from a start on.
#[derive(Clone, Copy, Debug, Default, PartialEq, Eq)]
pub struct Label {
    pub start: u32,
    pub length: u32,
}

// An expression: its items, if it is a list, are the records from the next one up to before `end`.
#[derive(Clone, Copy, Debug, Default, PartialEq, Eq)]
pub struct Expr {
    pub form: u32,
    pub at: Position,
    pub start: Position,
    pub end: u32,
    pub label: u32,
}

// A token with the label of its name.
#[derive(Clone, Copy, Debug, Default, PartialEq, Eq)]
pub struct Symbol {
    pub token: u16,
    pub label: u32,
}

// An operator of an assignment: `op=` and the `op` that it stands for.
#[derive(Clone, Copy, Debug, Default, PartialEq, Eq)]
pub struct Operator {
    pub compound: Symbol,
    pub binary: Symbol,
}

// A statement: its body is the records from the next one up to before `mid`, its branch those from `mid` up to
// before `end`. `counter` is the second label. A reference of 0 is absent.
#[derive(Clone, Copy, Debug, Default, PartialEq, Eq)]
pub struct Node {
    pub kind: u32,
    pub flags: u32,
    pub at: Position,
    pub mark: Position,
    pub mid: u32,
    pub end: u32,
    pub expr: u32,
    pub label: u32,
    pub counter: u32,
    pub reuse: u32,
    pub target: u32,
    pub operator: u32,
}

// A script: its text and its records, the most slots that it may have, and whether its scope is kept.
// Record 0 of labels, expressions and operators is unused.
#[derive(Clone, Copy, Debug, PartialEq, Eq)]
pub struct Script<'a> {
    pub text: &'a [u8],
    pub labels: &'a [Label],
    pub exprs: &'a [Expr],
    pub operators: &'a [Operator],
    pub nodes: &'a [Node],
    pub limit: u32,
    pub keep: bool,
}
