// The operator's own incident.
use arc_data::{Step, View};

/// What the desk told last of the steps of an incident.
#[derive(Clone, Copy)]
pub enum Due {
    /// Nothing yet, or nothing since a step was recorded.
    Untold,
    /// Each step is met.
    AllMet,
    /// This step is expected.
    Ahead(Step),
}

/// The incident that the operator holds: its number, its steps, and how the desk showed it last.
#[derive(Clone, Copy)]
pub struct Own {
    pub number: u64,
    pub due: Due,
    pub view: Option<View>,
}
