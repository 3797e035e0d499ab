// What lowering works with and what it keeps.

ghost use Rattle.std.specs.Prelude.{◌≤◌};
ghost use Rattle.stack64.specs.Listed.{listed};
ghost use Rattle.lowering.specs.Fit.{Counted, placed};

use code::{AssignOp, Instr, Loop, Row};
use records::Script;
use stack64::Stack64;
use tables::Stack;

// The most operations, rows, names, operator rows and break places that are ever used.
pub const MOST: usize = 4_194_304;

// The most slots.
pub const MOST_SLOTS: usize = 65_535;

// Operations with their positions; residual rows; the name table, by labels; operator rows.
pub type Code<'a> = Stack<'a, Instr, MOST>;

pub type Rows<'a> = Stack<'a, Row, MOST>;

pub type Names<'a> = Stack<'a, u32, MOST>;

pub type Operators<'a> = Stack<'a, AssignOp, MOST>;

// The names of the live slots, by labels; the places of breaks' jumps.

pub type Slots<'a> = Stack<'a, u32, MOST_SLOTS>;

pub type Breaks<'a> = Stack<'a, u32, MOST>;

// The block that is being lowered: its level, 0 for the whole script, and the slots that were live as it began.
#[derive(Clone, Copy)]
pub struct Level {
    pub level: usize,
    pub base: usize,
}

// The records, the memories that are lent, and beside them loops, block and counters. The stacks over the memories lie beside
// it, each lent at a lifetime of its own: of memory that is lent to a struct inside a struct, a caller is not told afterwards
// what it holds.
#[derive(Drop)]
pub struct Lowering<'s, 'c, 'ca, 'r, 'ra, 'n, 'na, 'o, 'oa, 'l, 'la, 'b, 'ba> {
    pub script: Script<'s>,
    pub code: &'c mut Code<'ca>,
    pub rows: &'r mut Rows<'ra>,
    pub names: &'n mut Names<'na>,
    pub operators: &'o mut Operators<'oa>,
    pub slots: &'l mut Slots<'la>,
    pub breaks: &'b mut Breaks<'ba>,
    // the loops around, the innermost newest
    pub loops: Stack64<Loop>,
    pub block: Level,
    // live iterators, and `try` regions around
    pub iters: usize,
    pub handlers: usize,
    // the most slots that there may be, and the most that there were
    pub limit: usize,
    pub deepest: usize,
    ghost counted: { Counted (placed code.now) (listed loops) },
    ghost iterated: { iters ≤ placed code.now },
    ghost handled: { handlers ≤ placed code.now },
}
