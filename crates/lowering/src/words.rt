// What makes entries of the tables the same.

ghost use Rattle.std.specs.Prelude.{◌≡◌};
ghost use Rattle.meaning.specs.LowerState.{same_oper};
ghost use Rattle.meaning.specs.Reading.{same_bytes};
ghost use Rattle.lowering.specs.Names.{same_word, words-lawful, opers-lawful};

use code::AssignOp;
use records::Script;
use tables::Same;

// All bytes are equal. (A call, for what the rules call `same_bytes`: a clause of `==` speaks of slices.)
pub fn same_bytes(a: &[u8], b: &[u8]) -> bool
    ensures { result ≡ same_bytes a.now b.now }
{
    a == b
}

// A script whose labels are the same when they spell the same name.
#[derive(Clone, Copy)]
pub struct Spelling<'a>(pub Script<'a>);

impl<'a> Same<Spelling<'a>> for u32 {
    ghost alike = { same_word };

    ghost lawful = { words-lawful };

    fn same(&self, other: &u32, spelling: &Spelling<'a>) -> bool {
        same_bytes(spelling.0.name(*self), spelling.0.name(*other))
    }
}

// Operator rows are the same when all four numbers are. (An impl of another crate's trait has to name a type of this one.)
#[derive(Clone, Copy)]
pub struct Numbers;

impl Same<Numbers> for AssignOp {
    ghost alike = { λ _. same_oper };

    ghost lawful = { λ _. opers-lawful };

    fn same(&self, other: &AssignOp, _numbers: &Numbers) -> bool {
        self == other
    }
}
