//! The store: a centre whose recorded events stand in a journal. What a call has answered outlives every crash.
#![tactic(auto)]

mod checkpoint;
mod following;
mod gather;
mod group;
mod hall;
mod laws;
mod open;
mod store;
mod submit;

pub use centre_core::{Batch, Dones, Grouped};
pub use following::Found;
pub use laws::{
    law_one_opening, law_recorded_opens, law_restarts_stand, law_runs_leave, law_torn_opens,
};
pub use open::entry_in;
pub use store::Store;
