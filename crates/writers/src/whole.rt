// The writer that asks every expression whole.

ghost use Rattle.std.specs.Prelude.{◌≡◌, List, length};
ghost use Rattle.meaning.specs.Writers.{whole, is_record};
ghost use Rattle.meaning.proofs.WritersLaw.{whole-lawful};

use crate::named::Named;
use crate::writer::Writer;
use code::{Instr, Op};
use records::Refusal;

// One question for every expression.
#[derive(Clone, Copy)]
pub struct Whole;

impl Writer for Whole {
    const LONGEST: usize = 1;

    const RISE: usize = 1;

    ghost means = { λ _ R _. whole R };

    ghost lawful = { λ w R T passed. whole-lawful T R };

    fn bounds() -> (usize, usize) {
        (Self::LONGEST, Self::RISE)
    }

    fn write(&self, named: &Named, expr: u32, out: &mut [Instr]) -> Result<usize, Refusal> {
        if !named.has(expr) {
            return Err(Refusal::UnknownExpression);
        }
        if out.is_empty() {
            return Err(Refusal::NoCodeRoom);
        }
        out[0] = Instr::bare(Op::EvalExpr(expr));
        Ok(1)
    }
}
