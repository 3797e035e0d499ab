// Setting: every expression's segment is put where it belongs, and every target is moved.
#![tactic(auto)]

mod call;
mod checks;
mod compiled;
mod places;
mod residual;

pub use call::set;
pub use compiled::Compiled;
