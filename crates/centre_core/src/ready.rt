// What has been worked out for an event, before anything changes.
ghost use Rattle.std.specs.Prelude.{◌≡◌, ◌≤◌, [], length, not, true};
ghost use Rattle.centre_rules.specs.Carrying.{carried_by};
ghost use Rattle.centre_rules.specs.History.{is_recorded, IsMoment};

use crate::centre::Centre;
use arc_data::{Carried, Event, Memory, Reply};
use centre_rules::is_recorded;
use known_accounts::{FoundAccount, WatchedSetup};
use std::fmt;
use std::marker::Model;
use std::snapshot::Snapshot;

/// The answer to an event, worked out over one state of one centre. It must be spent: applied to that centre, or discarded.
pub struct Ready {
    pub(crate) event: Event,
    pub(crate) at: u64,
    pub(crate) reply: Reply,
    // The setup of an Adopt's text, read already, with memory for the deadlines of its accounts.
    pub(crate) setup: Option<WatchedSetup>,
    // The signals that the entry carries, where it is recorded, each with the steps of the incident that it would open.
    pub(crate) carried: Vec<Carried>,
    // Where the account of a message or a heartbeat that is recorded stands.
    pub(crate) found: FoundAccount,
    pub(crate) of: Snapshot<Centre>,
}

impl Model for Ready {
    ghost use Rattle.centre_rules.specs.State.{Plan};
    ghost use Rattle.centre_core.specs.Kept.{IsReady};

    ghost Value = { Plan };

    ghost view = { λ r. record { event = r.event; at = r.at; reply = r.reply; carried = r.carried.items; of = r.of.value } };

    ghost invariant = { λ r. IsReady (record { event = r.event; at = r.at; reply = r.reply; carried = r.carried.items; of = r.of.value }) r.setup r.found };
}

impl Ready {
    /// Whether the entry will be quiet: it will change nothing, and is not recorded.
    pub fn quiet(&self) -> bool
        ensures { result ≡ not (is_recorded self.now.reply) }
    {
        !is_recorded(&self.reply)
    }

    /// The moment of the entry, in seconds since 1970.
    pub fn at(&self) -> u64
        ensures at { result ≡ self.now.at }
        ensures moment { IsMoment result }
    {
        self.at
    }

    /// The event that was handed in.
    pub fn event(&self) -> &Event
        ensures { result.now ≡ self.now.event }
    {
        &self.event
    }

    /// The reply of the entry.
    pub fn reply(&self) -> &Reply
        ensures { result.now ≡ self.now.reply }
    {
        &self.reply
    }

    /// The signals that the entry carries, where it is recorded.
    pub fn carried(&self) -> &[Carried]
        ensures carried { is_recorded self.now.reply ≡ true → result.now ≡ carried_by self.now.of.sum [] self.now.event self.now.at }
        ensures few { length result.now ≤ 4000 }
    {
        &self.carried
    }

    /// Gives the answer up. The centre stays as it was.
    pub fn discard(self) {
        let _ = self.into_event();
    }

    /// Gives the answer up, and the event back. The centre stays as it was.
    pub fn into_event(self) -> Event
        ensures { result ≡ self.event }
    {
        let Ready {
            event,
            at: _,
            reply: _,
            setup: _,
            carried: _,
            found: _,
            of: _,
        } = self;
        event
    }
}

/// An event for which there was no memory; it comes back.
#[derive(Drop)]
pub struct Unready {
    pub event: Event,
}

impl fmt::Debug for Unready {
    fn fmt<W: fmt::Write>(&self, f: &mut fmt::Formatter<W>) -> fmt::Result {
        f.write_str("Unready")
    }
}

// Who has no use for the event is told of the want of memory alone.
impl From<Unready> for Memory {
    fn from(_: Unready) -> Memory {
        Memory
    }
}

/// What a caller is told of its entry.
#[derive(Debug, Drop)]
pub struct Done {
    /// The number of the caller, 0 where there is one thread.
    pub caller: u64,
    /// The moment of the entry, in seconds since 1970.
    pub at: u64,
    pub reply: Reply,
}
