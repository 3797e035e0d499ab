#![tactic(auto)]

mod kinds;
mod machine;

pub use kinds::{Answered, Call, Mode, Outcome, Reply};
pub use machine::Player;
pub use slot_memory::fits;
