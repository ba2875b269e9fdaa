// What a desk answers.
use crate::rows::Rows;
use arc_data::{Class, Step, Txt, View};

/// What a line of the desk says.
#[derive(Drop)]
pub enum Said {
    /// The session acts for this operator.
    Welcome {
        name: Txt,
    },
    /// The login is refused, or the command is one for which somebody has to be logged in.
    Denied,
    /// The line was no command.
    What,
    /// The session has ended.
    Bye,
    /// The incident is the operator's from now on.
    Claimed {
        number: u64,
        class: Class,
        account: Txt,
    },
    /// No open incident waits for an operator.
    NoneWaiting,
    /// The operator holds this incident already.
    BusyWith {
        number: u64,
    },
    /// Another operator holds the incident.
    HeldBy {
        operator: Txt,
    },
    /// No open incident has this number.
    NotOpen {
        number: u64,
    },
    /// The operator does not hold the incident.
    NotYours {
        number: u64,
    },
    /// This step comes first, or none where each is met.
    Expected {
        step: Option<Step>,
    },
    /// A step is not met, this one first.
    Missing {
        step: Step,
    },
    /// The step is recorded, and so many are not met.
    Recorded {
        number: u64,
        left: u64,
    },
    /// Nobody holds the incident any more.
    Released {
        number: u64,
    },
    Closed {
        number: u64,
    },
    /// How many incidents are open, and the first of them.
    Listed {
        total: u64,
        rows: Rows,
    },
    Shown(View),
    Unknown,
    /// The line is none of these.
    Strange,
}
