// Fields of records: references and flags.

ghost use Rattle.std.specs.Prelude.{◌≡◌};
ghost use Rattle.records.specs.Tree.{flagged, if_any};

// What a reference refers to: 0 is absent.
pub fn present(reference: u32) -> Option<u32>
    ensures { result ≡ if_any (λ r. r) reference }
{
    (reference != 0).then_some(reference)
}

// Is a flag set?
pub fn has_flag(flags: u32, flag: u32) -> bool
    ensures { result ≡ flagged flag flags }
{
    flags & flag != 0
}
