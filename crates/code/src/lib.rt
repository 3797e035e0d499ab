#![tactic(auto)]

pub mod handles;
mod ops;
mod rows;
mod shapes;
mod talk;

pub use ops::{AssignOp, Instr, Op, Row};
pub use rows::RowKind;
pub use shapes::{Loop, Lowered};
pub use talk::{Answer, End, Handler, Purpose, Question, Slot};
