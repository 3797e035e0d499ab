#![tactic(auto)]

mod named;
mod names;
mod sizes;
mod whole;
mod writer;
mod written;

pub use named::Named;
pub use whole::Whole;
pub use writer::Writer;
pub use written::Written;
