//! The lines of a script: what each asks for, and which of them are skipped.
#![tactic(auto)]

mod digits;
mod laws;
mod line;
mod parts;

pub use digits::{MOST_DIGITS, spelled};
pub use laws::law_one_meaning;
pub use line::{ScriptLine, is_skipped};
