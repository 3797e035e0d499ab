#![tactic(auto)]

mod blocks;
mod guard;

pub use blocks::statements;
