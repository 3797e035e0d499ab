#![tactic(auto)]

mod distinct;
mod same;
mod stack;
mod stacks;

pub use distinct::{enter, first, newest};
pub use same::Same;
pub use stack::Stack;
