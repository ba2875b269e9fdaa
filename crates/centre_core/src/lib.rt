//! The centre of one thread: it takes events, answers each as the whole history so far demands, and keeps what later
//! answers need. A hall is where a session submits its events; here it is a centre kept in memory.
#![tactic(auto)]

mod answers;
mod batch;
mod carrying;
mod centre;
mod conditions;
mod copying;
mod decoding;
mod group_hall;
mod hall;
mod holding;
mod marks;
mod orders;
mod ready;
mod reserving;
mod summing;

pub use accounts::Setup;
pub use arc_data::{Blob, Event, Memory, Message, Reply, Token};
pub use batch::{Batch, Dones, Grouped, Submission};
pub use centre::Centre;
pub use decoding::decode_summary;
pub use group_hall::GroupHall;
pub use hall::{Hall, RamHall, Stop};
pub use incidents::Table;
pub use ready::{Done, Ready, Unready};
