// Records by number, where there is one.
ghost use Rattle.std.specs.Prelude.{◌≡◌};
ghost use Rattle.std.specs.Option.{option_map};
ghost use Rattle.records.specs.Tree.{records};
ghost use Rattle.intake.specs.Outlines.{name_in, expr_in, compound_in};

use records::{Expr, Script};

// The bytes that a label stands for.
pub fn name_of<'a>(script: &Script<'a>, label: u32) -> Option<&'a [u8]>
    ensures { option_map (λ x. x.now) result ≡ name_in (records script.now) label }
{
    let label = script.labels.get(label as usize)?;
    let start = label.start as usize;
    script.text.get(start..start + label.length as usize)
}

pub fn expr_of(script: &Script, number: usize) -> Option<Expr>
    ensures { result ≡ expr_in (records script.now) number }
{
    script.exprs.get(number).copied()
}

// The label of an operator's compound form.
pub fn compound_of(script: &Script, number: u32) -> Option<u32>
    ensures { result ≡ compound_in (records script.now) number }
{
    Some(script.operators.get(number as usize)?.compound.label)
}
