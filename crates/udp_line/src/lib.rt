//! The UDP line (DC-09 over datagrams, the receiver's side): each datagram of a mailbox is a line by itself, and what that line answers
//! goes back as one datagram.
#![tactic(auto)]

mod datagram;
mod letter;
mod mail_end;
mod serve;

pub use mail_end::MailEnd;
pub use serve::serve_mail;
