// What stands for each operation, and where.

ghost use Rattle.std.specs.Prelude.{◌≡◌, ℕ, ◌<◌, ◌≤◌, true, length, None, slice_index, slice_index_or};
ghost use Rattle.meaning.specs.SetCode.{targets_fine, expr_of, shift_all};
ghost use Rattle.writers.specs.Write.{writer_on};
ghost use Rattle.setting.specs.Set.{SegmentPut, PiecePut, Placed, moved_from, blank};

use crate::compiled::Compiled;
use crate::residual::expr_of;
use code::{Instr, Op, Row};
use records::Refusal;
use targets::move_target;
use writers::{Named, Writer};

// What stands for operations is made from this: a writer, the script with its name table, the residual rows. The code
// that they go into is no field: each contract says what it was before and is after.
#[derive(Drop)]
pub struct Setter<'a, W> {
    pub writer: &'a W,
    pub named: Named<'a>,
    pub rows: &'a [Row],
}

// A segment with its targets moved on.
fn shift(segment: &mut [Instr], by: u32)
    requires near { targets_fine 65 segment.old ≡ true }
    requires low { by ≤ 4194304 }
    ensures { segment.new ≡ shift_all by segment.old }
{
    for x in segment.iter_mut() {
        x.op = move_target(x.op, |target| by + target);
    }
}

impl<W: Writer> Setter<'_, W> {
    // Writes the segment of an expression straight into the code from a place on, and moves its targets on: the place
    // after it.
    fn put_segment(&self, expr: u32, out: &mut [Instr], at: usize) -> Result<usize, Refusal>
        requires room { length out.old ≤ 4194304 }
        requires within { at ≤ length out.old }
        ensures { SegmentPut (writer_on (W.Writer.means self.now.writer.now) self.now.named) expr at out.old result out.new }
    {
        let length = self.writer.write(&self.named, expr, &mut out[at..])?;
        let end = at + length;
        shift(&mut out[at..end], at as u32);
        Ok(end)
    }

    // Puts what stands for an operation into the code from a place on, its own target not moved yet: the place after it.
    fn put_piece(&self, x: Instr, out: &mut [Instr], at: usize) -> Result<usize, Refusal>
        requires room { length out.old ≤ 4194304 }
        requires within { at ≤ length out.old }
        ensures { PiecePut (writer_on (W.Writer.means self.now.writer.now) self.now.named) self.now.rows.now x at out.old result out.new }
    {
        if let Some(expr) = expr_of(self.rows, x.op) {
            return self.put_segment(expr, out, at);
        }
        if at >= out.len() {
            return Err(Refusal::NoCodeRoom);
        }
        out[at] = x;
        Ok(at + 1)
    }

    // Puts what stands for each operation, one after the other, and remembers where each begins: how much it is in all.
    pub fn put_pieces(
        &self,
        ops: &[Instr],
        places: &mut [u32],
        out: &mut [Instr],
    ) -> Result<usize, Refusal>
        requires room { length out.old ≤ 4194304 }
        requires remembered { length ops.now ≤ length places.old }
        ensures { Placed (writer_on (W.Writer.means self.now.writer.now) self.now.named) self.now.rows.now ops.now out.old result places.new out.new }
    {
        let mut at = 0;
        // no zip with `places.iter_mut()`, after which a proof knows nothing of the places
        for (i, x) in ops.iter().enumerate() {
            places[i] = at as u32;
            at = self.put_piece(*x, out, at)?;
        }
        Ok(at)
    }
}

// Moves the targets of the operations outside segments. (The places lie beside the operations, in fixed memory that is lent.)
pub fn move_targets(code: &Compiled, places: &[u32], out: &mut [Instr])
    requires targets { targets_fine (length places.now) code.now.ops.now ≡ true }
    requires remembered { length code.now.ops.now ≤ length places.now }
    requires within { (i : ℕ) → i < length code.now.ops.now → expr_of code.now.rows.now (slice_index_or code.now.ops.now i blank).op ≡ None → slice_index places.now i < length out.old }
    ensures { out.new ≡ moved_from code.now.rows.now (λ t. slice_index places.now t) 0 code.now.ops.now out.old }
{
    for (x, place) in code.ops.iter().zip(places) {
        if expr_of(code.rows, x.op).is_none() {
            out[*place as usize] = Instr {
                op: move_target(x.op, |target| places[target as usize]),
                ..*x
            };
        }
    }
}
