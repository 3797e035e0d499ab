// The call.

ghost use Rattle.std.specs.Prelude.{length};
ghost use Rattle.records.specs.Tree.{records};
ghost use Rattle.writers.specs.Write.{writer_for};
ghost use Rattle.setting.specs.Set.{SetBy, SetDone};

use crate::checks::check;
use crate::compiled::Compiled;
use crate::places::{Setter, move_targets};
use blanks::blank_from;
use code::{Instr, Op};
use records::Refusal;
use writers::{Named, Writer};

// Sets the code, or says why not; what is past it, or after a refusal, is not blank yet.
fn set_code<'a, W: Writer>(
    writer: &'a W,
    code: &Compiled<'a>,
    places: &mut [u32],
    out: &mut [Instr],
) -> Result<usize, Refusal>
    ensures { SetDone (writer_for (W.Writer.means writer.now) code.now.script code.now.names.now) (records code.now.script) code.now.names.now code.now.ops.now code.now.rows.now (length places.old) (length out.old) result out.new }
{
    check(code, out.len(), places.len())?;
    let setter = Setter {
        writer,
        named: Named {
            script: code.script,
            names: code.names,
        },
        rows: code.rows,
    };
    let count = setter.put_pieces(code.ops, places, out)?;
    move_targets(code, places, out);
    Ok(count)
}

// Sets code by a writer: the count of its operations. After it the code stands at the start of `out`, with blanks
// behind it; after a refusal all of `out` is blank. `places` is memory for one number an operation, blank afterwards.
pub fn set<W: Writer>(
    writer: &W,
    code: &Compiled,
    places: &mut [u32],
    out: &mut [Instr],
) -> Result<usize, Refusal>
    ensures { SetBy (writer_for (W.Writer.means writer.now) code.now.script code.now.names.now) (records code.now.script) code.now.names.now code.now.ops.now code.now.rows.now places.old out.old result places.new out.new }
{
    let result = set_code(writer, code, places, out);
    blank_from(out, result.unwrap_or(0), Instr::bare(Op::Unit));
    blank_from(places, 0, 0);
    result
}
