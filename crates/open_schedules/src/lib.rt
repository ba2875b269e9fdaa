//! Weekly opening hours by the local time of a zone: whether a moment lies in them, and when they close next.
//!
//! A moment is a number of seconds since the beginning of 1970 in GMT. No call takes memory.
#![tactic(auto)]

mod clock;
mod closing;
pub mod laws;
mod week;

pub use arc_data::Window;
pub use week::Week;
