//! What a message reports: its signals, their classes and kinds, and the types that readers of messages share.
#![tactic(auto)]

mod content;

pub use arc_data::{Blob, Class, Kind, Message, Signal, Signals, Token, Txt};
pub use content::data_of;
