//! Time zones by rules: what a rule of POSIX's variable TZ says, when daylight saving time is in force, and local time by it.
//! Definitions and their laws.
#![tactic(auto)]

pub mod laws;
