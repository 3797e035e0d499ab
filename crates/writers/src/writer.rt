// What an expression writer is.

ghost use Rattle.std.specs.Prelude.{◌≡◌, List, length};
ghost use Rattle.std.proofs.Math.Option.{none};
ghost use Rattle.records.specs.Tree.{Records};
ghost use Rattle.records.specs.Checks.{expr_fault};
ghost use Rattle.meaning.specs.Reading.{Bytes};
ghost use Rattle.meaning.specs.Fed.{Tables};
ghost use Rattle.meaning.specs.Writer.{Writer as Meaning, Lawful};
ghost use Rattle.writers.specs.Write.{writer_on, replied, filled};

use crate::named::Named;
use code::Instr;
use records::Refusal;

// Turns expressions into segments of operations. A writer is a plain value: the script and its name table come with
// each call, so that a writer can be a layer over any other.
pub trait Writer {
    // The longest segment, and the highest rise of the values while a segment plays.
    const LONGEST: usize;

    const RISE: usize;

    // For a script's records and the names of its name table: the known expressions, their readings and segments, and
    // the two numbers.
    ghost means: { Self → Records → List Bytes → Meaning };

    // The two numbers, as values that contracts can speak of.
    fn bounds() -> (usize, usize)
        ensures { (w : Self) (R : Records) (names : List Bytes) → result ≡ ((means w R names).longest, (means w R names).rise) };

    // Writes the segment of an expression to the start of the slice: its length. An unknown expression is refused, else
    // a slice shorter than the segment; both leave the slice as it was.
    fn write(&self, named: &Named, expr: u32, out: &mut [Instr]) -> Result<usize, Refusal>
        ensures answer { result ≡ replied (writer_on (means self.now) named.now) expr (length out.old) }
        ensures after { out.new ≡ filled (writer_on (means self.now) named.now) expr out.old };

    // The writers' law, for records whose expressions pass their check.
    ghost lawful: { (w : Self) (R : Records) (T : Tables) → expr_fault R ≡ none → Lawful T (length R.exprs) (means w R T.names) };
}
