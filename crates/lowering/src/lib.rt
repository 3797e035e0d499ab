// Each proof may look into the state and the rules.
#![tactic(auto, unfolding(crate::specs::View::low, meaning::specs::LowerState::emit_at, meaning::specs::LowerState::here, meaning::specs::LowerState::patch_to, meaning::specs::LowerState::add_row, meaning::specs::LowerState::enter_name, meaning::specs::LowerState::enter_oper, meaning::specs::LowerState::depth, meaning::specs::LowerState::may_declare, meaning::specs::LowerState::declare, meaning::specs::LowerState::drop_slots, meaning::specs::LowerState::resolve, meaning::specs::LowerState::set_iters, meaning::specs::LowerState::set_handlers, meaning::specs::LowerState::innermost, meaning::specs::LowerState::enter_loop, meaning::specs::LowerState::leave_loop, meaning::specs::LowerState::add_break, meaning::specs::LowerState::land))]

mod emitting;
mod loops;
mod rows;
mod slots;
mod state;
mod words;

pub use rows::{push_assign_op, push_name};
pub use slots::{depth, resolve};
pub use state::{Breaks, Code, Level, Lowering, MOST, MOST_SLOTS, Names, Operators, Rows, Slots};
pub use words::{Spelling, same_bytes};
