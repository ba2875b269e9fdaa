//! Many callers at one store under one lock. Each caller has a pass, a token that stands for what its caller has seen and made of the
//! one history that there is.
#![tactic(auto)]

mod at_gate;
mod blank;
mod closed;
mod gate;
mod locked_store;
mod name;
mod pass;
mod steps;
mod view;

pub use at_gate::AtGate;
pub use blank::{Blank, GateRefused};
pub use closed::GroupClosed;
pub use gate::Gate;
pub use name::GateName;
pub use pass::Pass;
pub use view::View;
