//! The transmitter of a panel: it sends one message at a time, and repeats it until it is acknowledged or given up.
#![tactic(auto)]

mod flight;
mod message;
mod panel;
mod report;
mod setting;

pub use arc_data::{Blob, Memory, Token, Txt};
pub use dc09_frame::FrameBuf;
pub use panel::Panel;
pub use panel_rules::{Fate, Heard, Queued};
pub use setting::is_panel_account;
