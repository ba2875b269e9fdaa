//! The table of open incidents: in order of number, at most one of an account and a class.
#![tactic(auto)]

mod index;
mod slots;
mod table;

pub use arc_data::{Acted, Acts, Class, Incident, Memory, Outcome, Step, StepList, Txt};
pub use slots::{Former, Slot};
pub use table::Table;
