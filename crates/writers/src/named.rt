// A script with its name table.

ghost use Rattle.std.specs.Prelude.{◌≡◌, ◌^◌, ◌<◌, true, length};
ghost use Rattle.std.proofs.Math.Option.{none};
ghost use Rattle.records.specs.Tree.{records};
ghost use Rattle.records.specs.Checks.{expr_fault};
ghost use Rattle.meaning.specs.Writers.{is_record};

use records::Script;

// A script whose expressions pass their check, and the labels of its name table.
#[derive(Clone, Copy)]
pub struct Named<'a> {
    pub script: Script<'a>,
    pub names: &'a [u32],
    pub ghost checked: { expr_fault (records script) ≡ none },
    pub ghost few: { length script.exprs.now < 2 ^ 32 },
    pub ghost numbered: { length names.now < 2 ^ 32 },
}

impl Named<'_> {
    // Is it the number of an expression's record? (By the writers' own word: for one comparison no other crate is called.)
    pub fn has(&self, expr: u32) -> bool
        ensures known { result ≡ is_record (length self.now.script.exprs.now) expr }
        ensures inside { result ≡ true → (0 < expr) × (expr < length self.now.script.exprs.now) }
    {
        0 < expr && (expr as usize) < self.script.exprs.len()
    }
}
