// What the centre answers.
use crate::{Class, Listing, Step, Txt, View};

/// What the centre answers to an event.
#[derive(Debug, PartialEq, Eq, Drop)]
pub enum Reply {
    Adopted,
    Started,
    /// The message is recorded.
    Taken,
    /// The message stands recorded already, the last time at this moment.
    Repeat {
        first: u64,
    },
    /// The heartbeat is recorded.
    Heard,
    /// So many signals were raised.
    Raised {
        count: u64,
    },
    /// The operator holds the incident from now on.
    Claimed {
        number: u64,
        class: Class,
        account: Txt,
    },
    /// The step is recorded, and so many of the incident's steps are not met.
    Recorded {
        number: u64,
        left: u64,
    },
    /// Nobody holds the incident any more.
    Released {
        number: u64,
    },
    /// The incident is closed.
    Closed {
        number: u64,
    },
    Shown(View),
    Listed(Listing),
    /// No open incident has this number.
    NotOpen {
        number: u64,
    },
    /// Another operator holds the incident.
    HeldBy {
        operator: Txt,
    },
    /// The operator holds an incident already, this one.
    BusyWith {
        number: u64,
    },
    /// The operator does not hold the incident.
    NotYours {
        number: u64,
    },
    /// Another step is expected first, or none where each step is met.
    Expected {
        step: Option<Step>,
    },
    /// A step is not met, this one first.
    Missing {
        step: Step,
    },
    /// No open incident waits for an operator.
    NoneWaiting,
    /// The setup in force has no such account or operator, the content has no signals, or the text is no setup.
    Unknown,
}
