//! The adapters over sockets and the machine's clock. They tell nothing of content, and are trusted beyond their counts.
mod peers;
mod second_pulse;
mod tcp_door;
mod tcp_port;
mod udp_mail;

pub use peers::Peers;
pub use second_pulse::SecondPulse;
pub use tcp_door::TcpDoor;
pub use tcp_port::TcpPort;
pub use udp_mail::UdpMail;
