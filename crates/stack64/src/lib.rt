#![tactic(auto)]

mod stack;

pub use stack::{NoPlace, Stack64};
