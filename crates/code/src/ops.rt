ghost use Rattle.std.specs.Prelude.{◌≡◌};
ghost use Rattle.records.specs.Tree.{nowhere};

use records::Position;

// What a compiled script is made of. Names, operands and their order are the original's; `EvalExpr` is added, and
// `Foreign` stands for each operation of the original, by its number, that takes no part here.
#[derive(Clone, Copy, Debug, PartialEq, Eq)]
pub enum Op {
    // pushes unit
    Unit,
    // pushes a truth value
    Bool(bool),
    // stores into a slot, which is constant or not from then on
    StoreLocal {
        slot: u16,
        is_const: bool,
    },
    // pushes the handle of a name
    LoadNamed(u32),
    // assigns to a name that has no slot
    AssignNamed {
        name: u32,
        op: Option<u32>,
    },
    // assigns to a slot
    AssignLocal {
        slot: u16,
        var_name: u32,
        op: Option<u32>,
    },
    // makes a new slot
    DeclareLocal {
        name: u32,
        is_const: bool,
        is_global: bool,
    },
    Pop,
    Jump(u32),
    JumpIfTrue {
        target: u32,
    },
    JumpIfFalse {
        target: u32,
    },
    // moves the newest value below so many others
    Rotate(u8),
    // drops the slots from so many on
    UnwindTo(u16),
    Tick,
    Checkpoint,
    // works out a residual row
    EvalAst {
        residual: u32,
        rewind_scope: bool,
    },
    PushHandler {
        target: u32,
        catch_var: Option<u32>,
    },
    PopHandler,
    IterInit,
    IterNext {
        exit: u32,
        counter_slot: Option<u16>,
    },
    IterDrop,
    // stores into a slot that stays constant or not
    StoreShared(u16),
    Throw,
    Return,
    // works out an expression
    EvalExpr(u32),
    Foreign(u8),
}

// An operation with its position.
#[derive(Clone, Copy, Debug, PartialEq, Eq)]
pub struct Instr {
    pub op: Op,
    pub at: Position,
}

impl Instr {
    // An operation without a position.
    pub fn bare(op: Op) -> Self
        ensures { result ≡ record { op = op; at = nowhere } }
    {
        Instr {
            op,
            at: Position::NONE,
        }
    }
}

// A residual row: an expression (kind 1) or the node of a whole statement (kind 2), by its number.
#[derive(Clone, Copy, Debug, PartialEq, Eq)]
pub struct Row {
    pub kind: u32,
    pub number: u32,
}

// An operator row: `op=` and `op`, each a token with the place of its name in the name table.
#[derive(Clone, Copy, Debug, PartialEq, Eq)]
pub struct AssignOp {
    pub op_assign: u16,
    pub op_assign_name: u32,
    pub op: u16,
    pub op_name: u32,
}
