// What the screen does.
use crate::order::Order;
use desk_wire::Command;

/// What comes of an input: the command that a key asked for, or a series that goes on, what is to be sent to the desk now, and whether the bell rings. A command
/// that was asked for and is not sent now is sent as soon as the one on the way is answered.
#[derive(Clone, Copy)]
pub struct Reaction {
    pub asked: Option<Command>,
    pub sent: Option<Order>,
    pub rung: bool,
}
