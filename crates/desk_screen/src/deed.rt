// An answered command.
use crate::plain::Plain;
use desk_wire::Command;

/// A command of the operator's and the line that answered it. A login stands without the digits of its PIN.
#[derive(Drop)]
pub struct Deed {
    pub command: Command,
    pub answer: Plain,
}
