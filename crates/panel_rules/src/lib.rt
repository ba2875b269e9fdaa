//! What a panel does: which events it takes, when it sends a copy of which, what acknowledges one, and what comes of each.
//! Definitions, and the answers that they speak of.
#![tactic(auto)]

use arc_data::{Blob, Token};

/// What a message of a panel reports: the kind of its data, and the data. It has at most 3900 bytes.
#[derive(Drop)]
pub struct Report {
    pub token: Token,
    pub content: Blob,
}

/// What came of an event that a panel was given to send.
#[derive(Clone, Copy, Debug, PartialEq, Eq)]
pub enum Queued {
    /// The event waits to be sent. Events are numbered from 1, in the order in which they were taken.
    Taken { event: u64 },
    /// 1,000 events wait already.
    Full,
    /// The data has more than 3900 bytes, or a `[`, `]`, line feed or carriage return, or reports no signals.
    BadData,
}

/// What the body of a reply told a panel.
#[derive(Clone, Copy, Debug, PartialEq, Eq)]
pub enum Heard {
    /// The message in flight, which has this event, is acknowledged.
    Acked { event: u64 },
    /// Anything else, which changes nothing.
    Other,
}

/// What came so far of an event that a panel took.
#[derive(Clone, Copy, Debug, PartialEq, Eq)]
pub enum Fate {
    /// No copy of its message was sent yet.
    Waiting,
    /// Its message was sent, and is neither acknowledged nor given up.
    InFlight,
    /// Its message was acknowledged while it was in flight.
    Acked,
    /// Its message was given up.
    GivenUp,
}
