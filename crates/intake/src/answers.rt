// What is printed for a script.
ghost use Rattle.std.specs.Prelude.{◌≡◌, OnOk};
ghost use Rattle.records.specs.Tree.{records};
ghost use Rattle.notation.specs.Tables.{tables};
ghost use Rattle.intake.specs.Answers.{refusal_text, verdict_text, Answers};

use super::outline::outline;
use super::texts::put;
use notation::Draft;
use records::{Refusal, Script, check};
use std::alloc::AllocError;

// (Piece by piece: a `String` of the whole line would grow as it is written.)
#[tactic(auto, unfolding(crate::specs::Answers::refusal_text))]
fn put_refusal(out: &mut Vec<u8>, refusal: &Refusal) -> Result<(), AllocError>
    ensures { OnOk result (out.new.items ≡ refusal_text refusal.now out.old.items) }
{
    out.extend_from_slice(b"refused ")?;
    put(out, &refusal.number())?;
    out.extend_from_slice(b" ")?;
    out.extend_from_slice(refusal.words().as_bytes())?;
    out.extend_from_slice(b"\n")
}

#[tactic(auto, unfolding(crate::specs::Answers::verdict_text))]
fn put_verdict(
    out: &mut Vec<u8>,
    script: &Script,
    verdict: Result<(), Refusal>,
    wanted: bool,
) -> Result<(), AllocError>
    ensures { OnOk result (out.new.items ≡ verdict_text (records script.now) wanted verdict out.old.items) }
{
    match verdict {
        Ok(()) => {
            out.extend_from_slice(b"accepted\n")?;
            if wanted {
                outline(out, script)?;
            }
        }
        Err(refusal) => put_refusal(out, &refusal)?,
    }
    Ok(())
}

// Adds the answer to a script: its name, the verdict on its records, and the outline if it is wanted.
pub fn answer(out: &mut Vec<u8>, draft: &Draft, wanted: bool) -> Result<(), AllocError>
    ensures { OnOk result (Answers (tables draft.now).records (tables draft.now).name wanted out.old.items out.new.items) }
{
    out.extend_from_slice(b"script ")?;
    out.extend_from_slice(draft.name())?;
    out.extend_from_slice(b"\n")?;
    let script = draft.script();
    let verdict = check(&script);
    put_verdict(out, &script, verdict, wanted)?;
    out.extend_from_slice(b"end\n")
}
