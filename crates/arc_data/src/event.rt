// What the centre is told, and histories of it.
use crate::{Blob, Outcome, Reply, Step, Txt};

/// The kind of a message's data: SIA DC-03 or Ademco Contact ID (DC-05).
#[derive(Clone, Copy, Debug, PartialEq, Eq)]
pub enum Token {
    SiaDcs,
    AdmCid,
}

/// Why an incident is closed: a real alarm, a false one, or a test.
#[derive(Clone, Copy, Debug, PartialEq, Eq)]
pub enum CloseCode {
    Real,
    False,
    Test,
}

/// A numbered message of a panel. The account is in capitals; the digits of the `R` and the `L` field stand as they
/// came; the sequence is at most 9999; the content has at most 4,095 bytes.
#[derive(Drop)]
pub struct Message {
    pub account: Txt,
    pub receiver: Option<Txt>,
    pub line: Txt,
    pub seq: u16,
    pub token: Token,
    pub content: Blob,
}

/// What the centre is told. Accounts are in capitals. An operator's name has 1 to 16 bytes: letters, digits, `.`, `_`, `-`.
#[derive(Drop)]
pub enum Event {
    /// A setup text comes into force.
    Adopt {
        text: Blob,
    },
    /// A run begins.
    Start,
    /// A panel's message, and the name of the line by which it came: 1 to 16 bytes, as an operator's.
    Message {
        message: Message,
        via: Txt,
    },
    /// A panel's heartbeat.
    Beat {
        account: Txt,
    },
    /// Time to look for accounts that are silent or late.
    Tick,
    /// An operator takes an incident.
    Claim {
        operator: Txt,
        number: u64,
    },
    /// An operator takes the most urgent incident that nobody holds.
    Next {
        operator: Txt,
    },
    /// An operator records what came of a step.
    Act {
        operator: Txt,
        number: u64,
        step: Step,
        outcome: Outcome,
    },
    /// An operator gives an incident back.
    Release {
        operator: Txt,
        number: u64,
    },
    /// An operator closes an incident.
    Close {
        operator: Txt,
        number: u64,
        code: CloseCode,
    },
    /// A question for one open incident.
    Show {
        number: u64,
    },
    /// A question for the open incidents.
    List,
}

/// One event of a history: who submitted it, at which moment it counts, and what was answered. No code makes a value of
/// this type: histories exist in the proofs alone.
#[derive(Drop)]
pub struct Entry {
    pub caller: u64,
    pub event: Event,
    pub at: u64,
    pub reply: Reply,
}

/// A recorded message and its moment.
#[derive(Drop)]
pub struct Past {
    pub message: Message,
    pub at: u64,
}
