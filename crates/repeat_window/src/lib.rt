//! The last 32 recorded messages of an account, and whether a message stands among them already.
#![tactic(auto)]

mod window;

pub use arc_data::{Memory, Message, Past as Seen};
pub use window::Window;
