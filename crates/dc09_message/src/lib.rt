//! The verdict on an undamaged frame (DC-09): whether its header and blocks can be read, whether its account is known and its key
//! fits, and the heartbeat or message that it brings.
#![tactic(auto)]

mod blocks;
mod content;
mod kind;
mod laws;
mod outcome;
mod verdicts;

pub use kind::MessageKind;
pub use laws::{
    law_blocks_are_written, law_content_is_written, law_written_blocks_are_read,
    law_written_content_is_read,
};
pub use outcome::{Verdict, Why};
pub use verdicts::verdict;
