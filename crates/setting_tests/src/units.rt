// A writer of its own: it reads every expression as unit.

ghost use Rattle.setting_tests.specs.Units.{units};
ghost use Rattle.std.proofs.Common.{arith};
ghost use Rattle.std.specs.Prelude.{length, refl};
ghost use Rattle.meaning.specs.Reading.Reading.{unit};
ghost use Rattle.meaning.proofs.WritersPlay.{written-plays};

use code::{Instr, Op};
use records::Refusal;
use writers::{Named, Writer};

#[derive(Clone, Copy)]
pub struct Units;

impl Writer for Units {
    const LONGEST: usize = 1;

    const RISE: usize = 1;

    ghost means = { λ _ R _. units R };

    ghost lawful = { λ w R T passed.
        record {
          short = omega arith;
          low = omega arith;
          within = λ e k. omega arith;
          plain = λ e k. refl;
          plays = λ e k. written-plays T (length R.exprs) unit tt;
        } };

    fn bounds() -> (usize, usize) {
        (Self::LONGEST, Self::RISE)
    }

    fn write(&self, named: &Named, expr: u32, out: &mut [Instr]) -> Result<usize, Refusal> {
        if !named.has(expr) {
            return Err(Refusal::UnknownExpression);
        }
        if out.is_empty() {
            return Err(Refusal::NoCodeRoom);
        }
        out[0] = Instr::bare(Op::Unit);
        Ok(1)
    }
}
