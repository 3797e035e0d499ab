ghost use Rattle.std.specs.Prelude.{◌≡◌, Bool};
ghost use Rattle.tables.specs.Sameness.{Lawful};

// What makes two entries of a table the same, in a context: an equivalence.
pub trait Same<C> {
    ghost alike: { C → Self → Self → Bool };

    ghost lawful: { (c : C) → Lawful (alike c) };

    fn same(&self, other: &Self, context: &C) -> bool
        ensures { result ≡ alike context.now self.now other.now };
}
