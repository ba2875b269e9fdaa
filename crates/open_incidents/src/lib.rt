//! The open incidents: the table together with the queue of those that nobody claimed and the list of those that are claimed, what each mark
//! of a history does to all three in place, and what operators are answered from them. What is kept of an incident is its claimer. Who holds
//! it at a moment is its claimer, unless that hold has lapsed then; so a lapse changes nothing that is kept.
#![tactic(auto)]

mod held;
mod kept_incidents;
mod lapsed;
pub mod listing;
pub mod marks;
pub mod orders;
mod queued_table;
pub mod standing;
mod uncounted;
mod waiting;

pub use arc_data::{
    Acted, Carried, Class, Incident, Kind, Memory, Outcome, Reply, Step, Txt, View,
};
pub use incidents::Table;
pub use queued_table::QueuedTable;
