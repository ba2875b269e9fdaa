// What is kept of a history.
ghost use Rattle.std.specs.Prelude.{◌≡◌, ◌≤◌, ◌<◌, ◌^◌, ◌∷◌, [], List, ℕ, true, IfOk, IfErr, max};
ghost use Rattle.std.specs.Option.{option_map};
ghost use Rattle.arc_data.specs.WellFormed.{IsWellFormed};
ghost use Rattle.centre_rules.specs.Summary.{Summary, nothing};
ghost use Rattle.centre_rules.specs.History.{Entry, moment_after, is_recorded, IsMoment};
ghost use Rattle.centre_rules.specs.Answers.{answer};
ghost use Rattle.centre_rules.specs.State.{StandsFor, Grows, entry_of};
ghost use Rattle.centre_core.specs.Kept.{MayRecord, Records, IsAdopted, IsWorked, HasRoomFor, NoLess, needed};
ghost use Rattle.centre_core.specs.Taken.{IsFoundFor};

use crate::answers::Worked;
use crate::marks::mark;
use crate::ready::{Done, Ready, Unready};
use accounts::Setup;
use arc_data::{Carried, Event, Memory, Reply, SetupFault};
use centre_rules::is_recorded;
use incidents::Table;
use known_accounts::{FoundAccount, SupervisedAccounts, WatchedSetup};
use open_incidents::QueuedTable;
use std::alloc::Global;
use std::marker::Model;
use std::snapshot::Snapshot;

/// The centre: how many entries it was given, and what it keeps of them. Contracts see its state, and say for which
/// histories it stands.
pub struct Centre {
    pub(crate) entries: u64,
    pub(crate) recorded: u64,
    pub(crate) last: u64,
    pub(crate) accounts: SupervisedAccounts,
    pub(crate) queued: QueuedTable,
}

// Written out: one call wherever one is dropped, where a derived drop is spelled out at each exit.
impl Drop for Centre {
    fn drop(self) {
        let Centre {
            entries: _,
            recorded: _,
            last: _,
            accounts,
            queued,
        } = self;
        drop(accounts);
        drop(queued);
    }
}

impl Model for Centre {
    ghost use Rattle.centre_rules.specs.State.{State};

    ghost Value = { State };

    ghost use Rattle.centre_core.specs.Taken.{sum_of};
    ghost use Rattle.centre_core.specs.Kept.{IsCentre};

    ghost view = { λ c. record { entries = c.entries; sum = sum_of c.last c.recorded c.accounts.text c.accounts.rows c.queued; rooms = record { incidents = c.queued.room; accounts = c.accounts.rows.room } } };

    ghost invariant = { λ c. IsCentre c.entries c.recorded c.last c.accounts.text c.queued };
}

impl Centre {
    /// A centre that was told nothing. It takes no memory.
    pub fn empty(alloc: Global) -> Centre
        ensures { StandsFor nothing result [] }
    {
        Centre {
            entries: 0,
            recorded: 0,
            last: 0,
            accounts: SupervisedAccounts::new(alloc),
            queued: QueuedTable::new(alloc),
        }
    }

    /// How many entries there were, quiet ones included.
    pub fn entries(&self) -> u64
        ensures { result ≡ self.now.entries }
    {
        self.entries
    }

    /// How many entries are recorded.
    pub fn recorded(&self) -> u64
        ensures { result ≡ self.now.sum.recorded }
    {
        self.recorded
    }

    /// The moment of the last entry that is recorded, seconds since 1970.
    pub fn last(&self) -> u64
        ensures { result ≡ self.now.sum.last }
    {
        self.last
    }

    /// The setup in force: that of the last Adopt, or none before the first.
    pub fn setup(&self) -> Option<&Setup>
        ensures { option_map (λ s. s.now) result ≡ self.now.sum.text }
    {
        self.accounts.setup()
    }

    /// The open incidents, each with its claimer.
    pub fn table(&self) -> &Table
        ensures incidents { result.now.incidents ≡ self.now.sum.incidents }
        ensures opened { result.now.opened ≡ self.now.sum.opened }
    {
        self.queued.table()
    }

    /// Works out the answer to an event that is submitted at a reading of the clock (seconds since 1970), and takes all
    /// the memory that applying it needs, for no more accounts than lack a row. What is kept stays, and there is never less room
    /// than before. The error is want of memory, and gives the event back.
    pub fn prepare(&mut self, alloc: Global, event: Event, clock: u64) -> Result<Ready, Unready>
        requires formed { IsWellFormed event }
        requires clock { IsMoment clock }
        requires few { self.old.entries < 2 ^ 48 }
        ensures entries { self.new.entries ≡ self.old.entries }
        ensures sum { self.new.sum ≡ self.old.sum }
        ensures rooms { NoLess self.old.rooms self.new.rooms }
        ensures most { self.new.rooms.accounts ≤ max self.old.rooms.accounts (needed self.old.sum event (max clock self.old.sum.last)) }
        ensures stays { (b : Summary) (h : List Entry) → StandsFor b self.old h → StandsFor b self.new h }
        ensures made { IfOk result (λ r. r.of ≡ self.new) }
        ensures event { IfOk result (λ r. r.event ≡ event) }
        ensures at { IfOk result (λ r. (b : Summary) (h : List Entry) → StandsFor b self.new h → r.at ≡ moment_after b h clock) }
        ensures reply { IfOk result (λ r. (b : Summary) (h : List Entry) → StandsFor b self.new h → r.reply ≡ answer b h event r.at) }
        ensures back { IfErr result (λ u. u.event ≡ event) }
    {
        let at = clock.max(self.last);
        match self.take_memory(alloc, &event, at) {
            Ok((setup, worked)) => Ok(Ready {
                event,
                at,
                reply: worked.reply,
                setup,
                carried: worked.carried,
                found: worked.found,
                of: Snapshot::of(self),
            }),
            Err(Memory) => Err(Unready { event }),
        }
    }

    // Reads the setup of an Adopt, works out the answer to an event at a moment, and takes the memory that applying it needs. The error is
    // want of memory.
    fn take_memory(
        &mut self,
        alloc: Global,
        event: &Event,
        at: u64,
    ) -> Result<(Option<WatchedSetup>, Worked), Memory>
        requires { IsMoment at }
        ensures entries { self.new.entries ≡ self.old.entries }
        ensures sum { self.new.sum ≡ self.old.sum }
        ensures rooms { NoLess self.old.rooms self.new.rooms }
        ensures most { self.new.rooms.accounts ≤ max self.old.rooms.accounts (needed self.old.sum event.now at) }
        ensures adopted { IfOk result (λ made. IsAdopted event.now made.0) }
        ensures worked { IfOk result (λ made. IsWorked self.new.sum event.now at made.1.reply made.1.carried.items) }
        ensures found { IfOk result (λ made. is_recorded made.1.reply ≡ true → IsFoundFor event.now made.1.found self.new.sum.text self.new.sum.rows) }
        ensures room { IfOk result (λ made. is_recorded made.1.reply ≡ true → HasRoomFor event.now made.1.carried.items self.new) }
    {
        let setup = adopted(alloc, event)?;
        let worked = self.work_out(alloc, event, &setup, at)?;
        if is_recorded(&worked.reply) {
            self.reserve(alloc, event, &worked.carried, worked.found)?;
        }
        Ok((setup, worked))
    }

    /// Makes the entry that was worked out. What is kept must be as it was then, and there may be more room; so other
    /// answers may have been worked out and given up since. It takes no memory and cannot fail.
    pub fn apply(&mut self, ready: Ready) -> Done
        requires entries { self.old.entries ≡ ready.of.entries }
        requires sum { self.old.sum ≡ ready.of.sum }
        requires rooms { NoLess ready.of.rooms self.old.rooms }
        ensures grows { Grows self.old self.new (entry_of 0 ready) }
        ensures entry { (b : Summary) (h : List Entry) (caller : ℕ) → StandsFor b self.old h → StandsFor b self.new (entry_of caller ready ∷ h) }
        ensures caller { result.caller ≡ 0 }
        ensures at { result.at ≡ ready.at }
        ensures reply { result.reply ≡ ready.reply }
    {
        let quiet = ready.quiet();
        let Ready {
            event,
            at,
            reply,
            setup,
            carried,
            found,
            of: _,
        } = ready;
        self.entries += 1;
        if quiet {
            return Done {
                caller: 0,
                at,
                reply,
            };
        }
        self.record(event, at, &reply, setup, &carried, found);
        Done {
            caller: 0,
            at,
            reply,
        }
    }

    // Keeps what a recorded event brings.
    fn record(
        &mut self,
        event: Event,
        at: u64,
        reply: &Reply,
        setup: Option<WatchedSetup>,
        carried: &[Carried],
        found: FoundAccount,
    )
        requires may { MayRecord self.old event at reply.now setup carried.now }
        requires found { IsFoundFor event found self.old.sum.text self.old.sum.rows }
        ensures { Records self.old self.new event at reply.now }
    {
        self.recorded += 1;
        self.last = at;
        if let Event::Adopt { .. } = event {
            let Some(setup) = setup else { unreachable!() };
            self.accounts.adopt(setup);
            self.queued.adopt();
            return;
        }
        mark(
            &mut self.accounts,
            &mut self.queued,
            event,
            at,
            reply,
            carried,
            found,
        );
    }
}

// The setup of an Adopt's text, with memory for the deadlines of its accounts, where the event is one and its text is a setup.
fn adopted(alloc: Global, event: &Event) -> Result<Option<WatchedSetup>, Memory>
    ensures { IfOk result (IsAdopted event.now) }
{
    let Event::Adopt { text } = event else {
        return Ok(None);
    };
    match Setup::read(alloc, text.bytes()) {
        Ok(setup) => Ok(Some(WatchedSetup::of(alloc, setup)?)),
        Err(SetupFault::Memory) => Err(Memory),
        Err(_) => Ok(None),
    }
}
