// What the number of a residual row's kind means.

ghost use Rattle.records.specs.Meanings.{Reads};
ghost use Rattle.std.specs.Prelude.{◌≡◌};
ghost use Rattle.code.specs.Rows.{row_kind_of, row_number};

use records::UnknownNumber;

#[derive(Clone, Copy, Debug, PartialEq, Eq)]
pub enum RowKind {
    Expression,
    Statement,
}

// The kind that a number stands for.
impl TryFrom<u32> for RowKind {
    type Error = UnknownNumber;

    ghost try_from_gives = { Reads row_kind_of };

    fn try_from(number: u32) -> Result<RowKind, UnknownNumber> {
        match number {
            1 => Ok(RowKind::Expression),
            2 => Ok(RowKind::Statement),
            _ => Err(UnknownNumber(number)),
        }
    }
}

// The number that stands for a kind.
impl From<RowKind> for u32 {
    ghost from_gives = { λ kind number. number ≡ row_number kind };

    fn from(kind: RowKind) -> u32 {
        match kind {
            RowKind::Expression => 1,
            RowKind::Statement => 2,
        }
    }
}
