// How many operations stand for expressions.

ghost use Rattle.std.specs.Prelude.{◌≡◌, ◌-◌, ◌≤◌, length, sum_by};
ghost use Rattle.records.specs.Tree.{records};
ghost use Rattle.records.specs.Meanings.{form_of};
ghost use Rattle.writers.specs.Sizes.{weight_of, weigh, Capped};

use records::{Expr, Form, Script};

// So many items are more than a longest segment and its test.
const TOO_MANY: usize = 33;

// What a record adds to a segment: a list three operations and its test, any other form one and its test.
fn weight(expr: &Expr) -> usize
    ensures { result ≡ weight_of (form_of expr.now.form) }
{
    match Form::try_from(expr.form) {
        Ok(Form::AllOf | Form::AnyOf) => 4,
        _ => 2,
    }
}

// What records add.
fn weights(exprs: &[Expr]) -> usize
    requires { length exprs.now ≤ 33 }
    ensures { result ≡ sum_by (λ e. weight_of (form_of e.form)) exprs.now }
{
    exprs.iter().map(weight).sum()
}

// How many operations stand for the items from `from` up to before `to`, each with its test. The scan stops where they
// are more than a longest segment and its test.
pub fn items_size(script: &Script, from: u32, to: u32) -> usize
    requires within { to ≤ length script.now.exprs.now }
    requires ordered { from ≤ to }
    ensures { Capped (weigh (records script.now) (to - from) from) result }
{
    let items = &script.exprs[from as usize..to as usize];
    weights(&items[..items.len().min(TOO_MANY)])
}
