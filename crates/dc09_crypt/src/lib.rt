//! Sealed messages of DC-09: encrypted bodies are opened, and acknowledgements are sealed, by a profile of this project's own.
#![tactic(auto)]

mod ack;
mod body;
mod laws;
mod opening;

pub use ack::seal_ack;
pub use body::open_body;
pub use laws::law_acks_open_again;
pub use opening::Opening;
