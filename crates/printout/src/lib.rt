// What the program prints, as a definition with examples, and in code.
#![tactic(auto)]

mod handlers;
pub mod limit;
pub mod program;
mod system;

pub use crate::system::answer_line;
