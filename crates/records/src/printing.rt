// What positions and refusals print.

ghost use Rattle.std.specs.Prelude.{Some};
ghost use Rattle.records.specs.Numbers.{position_text, words_of};

use crate::refusals::Refusal;
use crate::types::Position;
use std::fmt;

// `LINE:COLUMN`.
impl fmt::Display for Position {
    ghost output = { λ p. Some (position_text p) };

    fn fmt<W: fmt::Write>(&self, f: &mut fmt::Formatter<W>) -> fmt::Result {
        write!(f, "{}:{}", self.line, self.column)
    }
}

// Its words.
impl fmt::Display for Refusal {
    ghost output = { λ r. Some (words_of r) };

    fn fmt<W: fmt::Write>(&self, f: &mut fmt::Formatter<W>) -> fmt::Result {
        f.write_str(self.words())
    }
}
