//! The group gate: a gate at which callers submit events together, so that those of one piece of a line share one pair of syncs. It is a
//! gate of `line_gate` whose name says so.
#![tactic(auto)]

mod at_group;
mod gate;

pub use at_group::AtGroup;
pub use gate::{GroupBlank, GroupGate, GroupPass};
pub use line_gate::{GateRefused, GroupClosed};
