#![tactic(auto)]

mod fields;
mod jumps;
mod kinds;
mod leaves;
mod loops;
mod rows;
mod trials;
mod variables;

pub use jumps::{
    begin_if, emit_if_value, end_then, jump_if, leaves_value, meet, round_test, testing,
};
pub use kinds::plain;
pub use leaves::{breaking, calling, continuing, returning, throwing};
pub use loops::{
    Round, TestedRound, begin_do, begin_for, begin_while, end_do, end_for, end_round, end_while,
    exit_loop, loop_variable, open_iterator,
};
pub use trials::{begin_catch, begin_try, end_body, end_catch, end_caught};
pub use variables::{assigning, variable};
