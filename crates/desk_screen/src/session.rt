// The session with the desk.
use crate::order::Order;
use arc_data::Txt;
use desk_wire::Command;

/// The session with the desk: whether there is a connection, whom it acts for, the command on the way (without the digits of a PIN), the
/// one that waits to be sent, the one that was lost with its connection, which looks are owed, and for how many seconds the desk has
/// said nothing.
#[derive(Clone, Copy)]
pub struct Session {
    pub connected: bool,
    pub user: Option<Txt>,
    pub way: Option<Order>,
    pub wish: Option<Command>,
    pub undone: Option<Command>,
    pub show_owed: bool,
    pub list_owed: bool,
    pub silence: u64,
}
