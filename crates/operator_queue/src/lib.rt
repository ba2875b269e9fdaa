//! The incidents that wait for an operator: pairs of a priority and a number in order, and how many comparisons each call takes.
#![tactic(auto)]

mod ordered;
mod queue;
mod search;

pub use arc_data::Memory;
pub use ordered::OrderedPairs;
pub use queue::Queue;
