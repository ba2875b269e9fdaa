//! Where links, datagrams and ticks come from: doors, mailboxes and pulses, their forms in memory, and the adapters over sockets and the
//! machine's clock.
#![tactic(auto)]

mod adapters;
mod memory;
mod traits;

pub use adapters::{Peers, SecondPulse, TcpDoor, TcpPort, UdpMail};
pub use memory::{ListPulse, MemDoor, MemInbox, MemMail, MemOutbox};
pub use traits::{DATAGRAM_ROOM, Door, Mailbox, Pulse};
