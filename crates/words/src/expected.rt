// What was expected where a line is malformed.
ghost use Rattle.std.specs.Prelude.{◌≡◌};
ghost use Rattle.words.specs.declared.expected.Fault.TheVariants.{Malformed, NoMemory};

use std::alloc::{AllocError, AllocFailed};
use std::fmt;

// What should have stood there.
#[derive(Clone, Copy, Debug, PartialEq, Eq)]
pub enum Expected {
    // a word that begins a line
    Keyword,
    Name,
    // a number up to this one
    Number(u32),
    Position,
    Flag,
    Hex,
    LineEnd,
    // `script`, where a script is to begin
    Script,
    // `end`, where a script is open
    End,
}

// Why a line is not taken.
#[derive(Clone, Copy, Debug, PartialEq, Eq)]
pub enum Fault {
    Malformed(Expected),
    NoMemory,
}

impl From<AllocError> for Fault {
    ghost from_gives = { λ _ fault. fault ≡ NoMemory };

    fn from(_error: AllocError) -> Fault {
        Fault::NoMemory
    }
}

impl<T: Drop> From<AllocFailed<T>> for Fault {
    ghost from_gives = { λ _ fault. fault ≡ NoMemory };

    fn from(_refused: AllocFailed<T>) -> Fault {
        Fault::NoMemory
    }
}

impl From<Expected> for Fault {
    ghost from_gives = { λ expected fault. fault ≡ Malformed expected };

    fn from(expected: Expected) -> Fault {
        Fault::Malformed(expected)
    }
}

impl fmt::Display for Expected {
    fn fmt<W: fmt::Write>(&self, f: &mut fmt::Formatter<W>) -> fmt::Result {
        match self {
            Expected::Keyword => {
                f.write_str("script, limit, keep, text, label, expr, oper, node or end")
            }
            Expected::Name => f.write_str("a name"),
            Expected::Number(most) => write!(f, "a number from 0 to {most}"),
            Expected::Position => f.write_str("a position LINE:COLUMN, each from 0 to 65535"),
            Expected::Flag => f.write_str("0 or 1"),
            Expected::Hex => f.write_str("pairs of hexadecimal digits, or -"),
            Expected::LineEnd => f.write_str("the end of the line"),
            Expected::Script => f.write_str("script NAME, since no script is open"),
            Expected::End => f.write_str("end, since a script is open"),
        }
    }
}
