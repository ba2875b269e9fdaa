//! What the operator's screen looks like: its rows, what a terminal is sent for them, and the file of sites.
#![tactic(auto)]

mod commands;
mod framing;
mod keys;
mod layout;
mod line;
mod mine;
mod past;
mod prompts;
mod rows;
mod sites;
mod strip;
mod tone;

pub use commands::{order_line, spelled};
pub use framing::{frame, row_bytes};
pub use keys::{KeyReader, Pressed};
pub use layout::{Page, Shown, Size, is_at_work, row, shown_after};
pub use line::Line;
pub use past::Past;
pub use prompts::leaves;
pub use rows::answered_row;
pub use sites::Sites;
pub use strip::Strip;
pub use tone::Tone;
