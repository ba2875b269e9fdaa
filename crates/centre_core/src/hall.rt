// Where a session submits its events, and a centre in memory as such a place.
ghost use Rattle.std.specs.Prelude.{◌≡◌, ◌<◌, ◌≤◌, ◌+◌, ◌^◌, ◌↔◌, List, ℕ, Some, IfOk, IfErr, OnOk, OnErr};
ghost use Rattle.arc_data.specs.WellFormed.{IsWellFormed};
ghost use Rattle.alarm_rules.specs.Setups.{meaning};
ghost use Rattle.centre_rules.specs.Summary.{Summary, nothing};
ghost use Rattle.centre_rules.specs.Marks.{force};
ghost use Rattle.centre_rules.specs.History.{Entry, IsMoment, marks};
ghost use Rattle.centre_rules.specs.Answers.{IsLegal};
ghost use Rattle.centre_core.specs.Runs.{begun, IsSubmitted};

use crate::centre::Centre;
use crate::ready::Done;
use accounts::Setup;
use arc_data::{Blob, Event, Memory};
use std::alloc::Global;
use std::marker::Model;

/// Why a hall did not take an event. The event is dropped.
#[derive(Clone, Copy, Debug, PartialEq, Eq)]
pub enum Stop {
    /// Want of memory.
    Memory,
    /// The disk failed: the count of its faults when the store was opened, and now. The event may stand on it or not.
    Down { at_open: u64, now: u64 },
    /// The journal has no room for the event: the bytes that it has, those that the event's record needs, and its records.
    Full { used: u64, need: u64, records: u64 },
    /// The hall has so many entries, 281,474,976,710,656 or more, that it takes no further one.
    Worn { count: u64 },
}

/// Where a session submits its events: a centre of its own, or one that it shares with others.
pub trait Hall {
    ghost use Rattle.centre_core.specs.Halls.{HallSeen, IsKept, GoesOn, LeftEvent};

    /// What it tells at a moment.
    ghost seen: { Self → HallSeen };

    /// Submits an event at a reading of the clock (seconds since 1970), which gets one entry. After a Stop it has none.
    fn submit(&mut self, alloc: Global, event: Event, clock: u64) -> Result<Done, Stop>
        requires ready { (seen self.old).ready }
        requires submitted { IsSubmitted event }
        requires formed { IsWellFormed event }
        requires clock { IsMoment clock }
        ensures kept { IsKept (seen self.old) (seen self.new) }
        ensures done { IfOk result (λ d. (b : Summary) (h : List Entry) → (seen self.old).stands b h →
            GoesOn b (seen self.old) (seen self.new) h clock (record { caller = d.caller; event = event; at = d.at; reply = d.reply })) }
        ensures by { IfOk result (λ d. d.caller ≡ (seen self.old).caller) }
        ensures stop { IfErr result (λ s. (b : Summary) (h : List Entry) → (seen self.old).stands b h →
            LeftEvent s b (seen self.old) (seen self.new) h event clock) }
        ensures cause { IfErr result (λ s. (seen self.new).shows s event clock) };

    /// The setup in force.
    fn setup(&self) -> &Setup
        requires { (seen self.now).ready }
        ensures { result.now ≡ (seen self.now).text };

    /// It stands for legal histories alone.
    ghost legal: { (hall : Self) (b : Summary) (h : List Entry) → (seen hall).stands b h → IsLegal b h };

    /// After each history for which it stands the setup of its text is in force.
    ghost in_force: { (hall : Self) (b : Summary) (h : List Entry) → (seen hall).stands b h → force b (marks b h) ≡ Some (meaning (seen hall).text) };
}

/// A centre in memory, of which a run has begun. Contracts see the centre's state.
#[derive(Drop)]
pub struct RamHall {
    centre: Centre,
}

impl Model for RamHall {
    ghost use Rattle.centre_rules.specs.State.{State};

    ghost Value = { State };

    ghost use Rattle.centre_core.specs.Setting.{IsSetting};

    ghost view = { λ h. h.centre };

    ghost invariant = { λ h. IsSetting h.centre.sum.text };
}

impl RamHall {
    ghost use Rattle.centre_core.specs.Setting.{IsSetFor};

    /// A hall over an empty centre, which is told an Adopt of the setup's text and a Start, both at this reading of the
    /// clock (seconds since 1970). The error is want of memory.
    pub fn new(alloc: Global, setup: Setup, clock: u64) -> Result<RamHall, Memory>
        requires { IsMoment clock }
        ensures { IfOk result (λ hall. IsSetFor nothing hall (begun setup clock)) }
    {
        let text = setup.text();
        let text = Blob::of(alloc, text)?;
        let mut centre = Centre::empty(alloc);
        let adopt = centre.prepare(alloc, Event::Adopt { text }, clock)?;
        let _ = centre.apply(adopt);
        let start = centre.prepare(alloc, Event::Start, clock)?;
        let _ = centre.apply(start);
        Ok(RamHall { centre })
    }

    /// Gives the centre back.
    pub fn into_centre(self) -> Centre
        ensures { result ≡ self }
    {
        self.centre
    }
}

impl Hall for RamHall {
    ghost use Rattle.centre_core.specs.Halls.{IsKept, GoesOn, LeftEvent};
    ghost use Rattle.centre_core.specs.Setting.{IsSetFor, IsShown, ram_seen};
    ghost use Rattle.centre_core.specs.InForce.{in_force};

    ghost seen = { ram_seen };

    ghost legal = { λ s b h w. w.stands.legal };

    ghost in_force = { in_force };

    /// Submits an event at a reading of the clock (seconds since 1970). After a Stop nothing has changed. It is worn exactly
    /// where it has 281,474,976,710,656 entries or more; the other Stop is want of memory.
    fn submit(&mut self, alloc: Global, event: Event, clock: u64) -> Result<Done, Stop>
        requires submitted { IsSubmitted event }
        requires formed { IsWellFormed event }
        requires clock { IsMoment clock }
        ensures kept { IsKept (ram_seen self.old) (ram_seen self.new) }
        ensures done { IfOk result (λ d. (b : Summary) (h : List Entry) → IsSetFor b self.old h →
            GoesOn b (ram_seen self.old) (ram_seen self.new) h clock (record { caller = d.caller; event = event; at = d.at; reply = d.reply })) }
        ensures by { IfOk result (λ d. d.caller ≡ 0) }
        ensures stop { IfErr result (λ s. (b : Summary) (h : List Entry) → IsSetFor b self.old h →
            LeftEvent s b (ram_seen self.old) (ram_seen self.new) h event clock) }
        ensures cause { IfErr result (IsShown self.new) }
        ensures text { self.new.sum.text ≡ self.old.sum.text }
        ensures worn { (2 ^ 48 ≤ self.old.entries) ↔ (result ≡ Err (Stop.Worn self.old.entries)) }
        ensures taken { OnOk result (self.new.entries ≡ self.old.entries + 1) }
        ensures entries { OnErr result (self.new.entries ≡ self.old.entries) }
        ensures sum { OnErr result (self.new.sum ≡ self.old.sum) }
    {
        let count = self.centre.entries();
        if count >= 1 << 48 {
            return Err(Stop::Worn { count });
        }
        match self.centre.prepare(alloc, event, clock) {
            Ok(ready) => Ok(self.centre.apply(ready)),
            Err(_) => Err(Stop::Memory),
        }
    }

    /// The setup in force.
    fn setup(&self) -> &Setup
        ensures { Some result.now ≡ self.now.sum.text }
    {
        match self.centre.setup() {
            Some(setup) => setup,
            None => unreachable!(),
        }
    }
}
