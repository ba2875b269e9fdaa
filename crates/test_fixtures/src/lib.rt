//! What tests of several libraries make: messages, ports, halls and stores in memory, and the moment at which their runs begin. No code
//! of the program stands on it.
#![tactic(auto)]

pub mod halls;
pub mod messages;
pub mod moments;
pub mod ports;
pub mod stores;
