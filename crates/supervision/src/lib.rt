//! Deadlines, at most one of each place, and the places whose deadline is passed.
#![tactic(auto)]

mod laws;
mod pairs;
mod places;
mod watch;

pub use arc_data::Memory;
pub use laws::law_steps_are_twice_digits;
pub use places::Places;
pub use watch::Watch;
