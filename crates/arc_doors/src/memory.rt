//! The forms in memory. They tell all that they give and get.
mod door;
mod inbox;
mod mail;
mod outbox;
mod pulse;

pub use door::MemDoor;
pub use inbox::MemInbox;
pub use mail::MemMail;
pub use outbox::MemOutbox;
pub use pulse::ListPulse;
