// The records of a script, and the checks that every later call rests on.
#![tactic(auto)]

mod checks;
mod kinds;
mod meanings;
mod names;
mod nest;
mod printing;
mod refusals;
mod types;

pub use checks::{check, check_exprs, check_labels};
pub use kinds::{
    BREAK, CONSTANT, EXPORTED, Form, Kind, MOST_BYTES, MOST_EXPRS, MOST_LABELS, NEGATED, Target,
    UnknownNumber,
};
pub use refusals::Refusal;
pub use types::{Expr, Label, Node, Operator, Position, Script, Symbol};
