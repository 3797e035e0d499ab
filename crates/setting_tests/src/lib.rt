// Setting, tried by three writers.
#![tactic(auto)]

#[cfg(test)]
mod tests;
mod units;

pub use units::Units;
