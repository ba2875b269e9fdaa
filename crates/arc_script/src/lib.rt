//! The script runner: the lines of a text are played over a disk, one after another. What each does to the receiver's lines, to its desks
//! and to the clock is written as one line of output.
#![tactic(auto)]

mod begin;
mod command;
mod feed;
mod page;
mod play;
mod reopen;
mod replies;
mod room;
mod run;
mod script;
mod script_end;
mod step;
mod tick;

pub use run::run_script;
pub use script_end::{ScriptEnd, ScriptEnded, Tally};
