// What is sent to the desk.
use desk_wire::Command;

/// What the screen asks by itself.
#[derive(Clone, Copy)]
pub enum Poll {
    /// The open incidents.
    Whole,
    /// The operator's own incident.
    One { number: u64 },
}

/// What is sent to the desk: a command of the operator's, or a look.
#[derive(Clone, Copy)]
pub enum Order {
    Typed(Command),
    Polled(Poll),
}
