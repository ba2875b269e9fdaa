//! What an operator types at a desk, and the lines that a desk prints.
#![tactic(auto)]

mod command;
mod forms;
mod laws;
mod line;
mod names;
mod printing;
mod texts;

pub use command::Command;
pub use laws::{law_read_is_spelled, law_spelled_is_read};
pub use line::Line;
pub use names::{number, step};
pub use printing::{print, print_in, print_welcome};
