//! A journal in two areas of a disk that take turns: the body of a summary, and records behind gates, so that a crash at any
//! moment leaves what stood before a call, with the new record or without, or the new summary.
#![tactic(auto)]

mod append_all;
mod bodies;
mod fault;
mod filled;
mod journal;
mod laws;
mod open;
mod reading;
mod record;
mod summary;
mod turn;
mod window;

pub use bodies::Bodies;
pub use fault::{AppendFault, BodyFault, OpenFault};
pub use journal::{Journal, Limits, OpenRefused, SHIPPED};
pub use laws::{law_one_answer, law_one_standing};
pub use open::check_front;
