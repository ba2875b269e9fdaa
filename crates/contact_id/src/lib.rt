//! Contact ID data (DC-05): what a message with the token `ADM-CID` reports.
#![tactic(auto)]

mod class;
mod reading;

pub use reading::read;
