//! The report: what a person reads of a centre.
#![tactic(auto)]

mod writing;

pub use writing::report;
