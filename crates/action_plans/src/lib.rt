//! What operators have to do for an incident: the plans of setup texts, their steps, and which steps are met.
#![tactic(auto)]

mod met;
mod plan;

pub use arc_data::{Acted, Acts, Outcome, PlanWord, Planned, Step, StepList, Txt};
pub use met::{expected_step, fits, left, remaining};
pub use plan::Plan;
