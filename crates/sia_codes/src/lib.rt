//! SIA data (DC-03): what a message with the token `SIA-DCS` reports.
#![tactic(auto)]

mod item;
mod laws;
mod meaning;
mod reading;

pub use laws::{law_read_is_spelled, law_spelled_is_read};
pub use reading::read;
