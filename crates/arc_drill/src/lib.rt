//! The drill: a port in memory whose input is a script of any number of messages, made as it is read. It takes no memory.
#![tactic(auto)]

mod drill;
mod lines;
mod place;
mod texts;

pub use drill::Drill;
