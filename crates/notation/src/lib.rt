// The notation of scripts: lines of words, read into the tables of a script.
#![tactic(auto)]

mod draft;
mod lines;
mod reader;

pub use draft::Draft;
pub use lines::{Keyword, Line, Record};
pub use reader::{Reader, Step};
