// What is known of each account, and by when it has to be heard and closed. None of the calls that make a mark takes memory.
ghost use Rattle.std.specs.Prelude.{◌≡◌, ◌≤◌, [], ◌∷◌, List, ℕ, max, None, Some, IfOk, OnOk};
ghost use Rattle.std.specs.List.{filter};
ghost use Rattle.std.specs.Option.{option_map};
ghost use Rattle.known_accounts.specs.Rows.{HasRoom, KeepsRows, MakesRow, Marked};
ghost use Rattle.centre_rules.specs.Carrying.{is_silent, is_late};
ghost use Rattle.centre_rules.specs.History.{IsMoment};
ghost use Rattle.centre_rules.specs.Marks.{Starts, Hears, Sends, Carries};
ghost use Rattle.known_accounts.specs.Supervised.{ArePlacesOf, IsFoundOf, IsPlaceIn, IsPlaceOf, accounts_in, rows_sum};

use crate::account_rows::AccountRows;
use crate::deadlines::Deadlines;
use crate::due::moves;
use crate::uncounted::due;
use crate::watched_setup::{WatchedParts, WatchedSetup};
use accounts::Setup;
use arc_data::{Carried, Memory, Message, Txt};
use std::alloc::Global;
use std::marker::Model;
use supervision::Places;

/// Where an account stands: the place of its row, and its place in the setup in force, where that has it.
#[derive(Clone, Copy)]
pub struct AccountPlace {
    pub row: usize,
    pub setup: Option<usize>,
}

/// What was looked up of an account: the place of its row, and its place in the setup in force, where it has them.
#[derive(Clone, Copy)]
pub struct FoundAccount {
    pub row: Option<usize>,
    pub setup: Option<usize>,
}

/// What is known of each account, the setup in force, and for each of its accounts the deadlines of its silence and of its late
/// closing. Contracts see the setup's text, and the rows.
pub struct SupervisedAccounts {
    pub(crate) setup: Option<Setup>,
    pub(crate) rows: AccountRows,
    pub(crate) deadlines: Deadlines,
}

// Written out: one call wherever one is dropped, where a derived drop is spelled out at each exit.
impl Drop for SupervisedAccounts {
    fn drop(self) {
        let SupervisedAccounts {
            setup,
            rows,
            deadlines,
        } = self;
        drop(setup);
        drop(rows);
        drop(deadlines);
    }
}

impl Model for SupervisedAccounts {
    ghost use Rattle.known_accounts.specs.Supervised.{SupervisedValue, IsSupervised};

    ghost Value = { SupervisedValue };

    ghost view = { λ s. record { text = s.setup; rows = s.rows } };

    ghost invariant = { λ s. IsSupervised s.setup s.rows s.deadlines.silence s.deadlines.lateness };
}

impl SupervisedAccounts {
    /// Nothing is known, and no setup is in force. Takes no memory.
    pub fn new(alloc: Global) -> SupervisedAccounts
        ensures { result ≡ record { text = None; rows = record { start = None; rows = []; room = 0 } } }
    {
        SupervisedAccounts {
            setup: None,
            rows: AccountRows::new(alloc),
            deadlines: Deadlines::new(alloc),
        }
    }

    /// Takes memory for so many accounts that have no row yet, and for no more. The error is want of memory.
    pub fn reserve(&mut self, alloc: Global, more: usize) -> Result<(), Memory>
        ensures text { self.new.text ≡ self.old.text }
        ensures start { self.new.rows.start ≡ self.old.rows.start }
        ensures rows { self.new.rows.rows ≡ self.old.rows.rows }
        ensures room { self.old.rows.room ≤ self.new.rows.room }
        ensures enough { OnOk result (more ≤ self.new.rows.room) }
        ensures most { self.new.rows.room ≤ max self.old.rows.room more }
    {
        self.rows.reserve(alloc, more)
    }

    /// The setup in force, or none before the first.
    pub fn setup(&self) -> Option<&Setup>
        ensures { option_map (λ s. s.now) result ≡ self.now.text }
    {
        self.setup.as_ref()
    }

    /// What is known of each account.
    pub fn rows(&self) -> &AccountRows
        ensures { result.now ≡ self.now.rows }
    {
        &self.rows
    }

    /// The places of the accounts of the setup in force that have an interval, were last heard longer ago, and are not failed,
    /// in their order. Only the deadlines that are passed are looked at, and one more. The error is want of memory.
    pub fn silent(&self, alloc: Global, at: u64) -> Result<Places, Memory>
        ensures { IfOk result (λ places. ArePlacesOf places (accounts_in self.now.text) (filter (is_silent (rows_sum self.now.rows) [] at) (accounts_in self.now.text))) }
    {
        let mut places = Places::new(alloc);
        due(&self.deadlines.silence, at, &mut places)?;
        Ok(places)
    }

    /// The places of the accounts of the setup in force that are open, although they should be closed since more than 900 seconds,
    /// and of which no LateClose was raised since, in their order. Only the deadlines that are passed are looked at, and one more.
    /// The error is want of memory.
    pub fn late(&self, alloc: Global, at: u64) -> Result<Places, Memory>
        ensures { IfOk result (λ places. ArePlacesOf places (accounts_in self.now.text) (filter (is_late (rows_sum self.now.rows) [] at) (accounts_in self.now.text))) }
    {
        let mut places = Places::new(alloc);
        due(&self.deadlines.lateness, at, &mut places)?;
        Ok(places)
    }

    /// A setup comes into force: what is known of the accounts stays, of those too that it lacks.
    pub fn adopt(&mut self, watched: WatchedSetup)
        ensures text { self.new.text ≡ Some watched }
        ensures rows { self.new.rows ≡ self.old.rows }
    {
        let WatchedSetup { parts } = watched;
        let WatchedParts {
            setup,
            mut deadlines,
        } = Box::into_inner(parts);
        deadlines.renew_all(&setup, &self.rows);
        self.setup = Some(setup);
        self.deadlines = deadlines;
    }

    /// A run starts: each account is heard.
    pub fn start(&mut self, at: u64)
        ensures text { self.new.text ≡ self.old.text }
        ensures marked { Marked (Starts at) self.old.rows self.new.rows }
        ensures kept { KeepsRows self.old.rows self.new.rows }
    {
        self.rows.start(at);
        if let Some(setup) = &self.setup {
            self.deadlines.renew_all(setup, &self.rows);
        }
    }

    /// Looks an account up.
    pub fn find(&self, account: &Txt) -> FoundAccount
        ensures { IsFoundOf account.now result self.now.text self.now.rows.rows }
    {
        FoundAccount {
            row: self.rows.row_of(account),
            setup: place_in(&self.setup, account),
        }
    }

    /// Where an account stands. Its row is made where it has none.
    pub fn place(&mut self, account: &Txt) -> AccountPlace
        requires { HasRoom (account.now ∷ []) self.old.rows }
        ensures text { self.new.text ≡ self.old.text }
        ensures there { IsPlaceOf account.now result self.new }
        ensures made { MakesRow account.now self.old.rows self.new.rows }
    {
        let found = self.find(account);
        self.place_from(found, account)
    }

    /// The same of an account that was looked up already.
    pub fn place_from(&mut self, found: FoundAccount, account: &Txt) -> AccountPlace
        requires room { HasRoom (account.now ∷ []) self.old.rows }
        requires found { IsFoundOf account.now found self.old.text self.old.rows.rows }
        ensures text { self.new.text ≡ self.old.text }
        ensures there { IsPlaceOf account.now result self.new }
        ensures made { MakesRow account.now self.old.rows self.new.rows }
    {
        let row = self.rows.place_from(found.row, account);
        AccountPlace {
            row,
            setup: found.setup,
        }
    }

    /// The account that stands here is heard.
    pub fn hear(&mut self, place: AccountPlace, at: u64)
        requires { (account : List ℕ) × IsPlaceOf account place self.old }
        ensures text { self.new.text ≡ self.old.text }
        ensures marked { (account : List ℕ) → IsPlaceOf account place self.old → Marked (Hears account at) self.old.rows self.new.rows }
        ensures kept { KeepsRows self.old.rows self.new.rows }
    {
        self.rows.hear(place.row, at);
        let known = self.rows.known_at(place.row);
        self.deadlines
            .renew_silence(&self.setup, place.setup, known);
    }

    /// A message of the account that stands here is recorded.
    pub fn send(&mut self, place: AccountPlace, message: Message, at: u64)
        requires { IsPlaceOf message.account place self.old }
        ensures text { self.new.text ≡ self.old.text }
        ensures marked { Marked (Sends message at) self.old.rows self.new.rows }
        ensures kept { KeepsRows self.old.rows self.new.rows }
    {
        self.rows.send(place.row, message, at);
        let known = self.rows.known_at(place.row);
        self.deadlines
            .renew_silence(&self.setup, place.setup, known);
    }

    /// The account that stands here has a signal.
    pub fn carry(&mut self, place: AccountPlace, x: &Carried)
        requires there { IsPlaceOf x.now.account place self.old }
        requires moment { IsMoment x.now.at }
        ensures text { self.new.text ≡ self.old.text }
        ensures marked { Marked (Carries x.now) self.old.rows self.new.rows }
        ensures kept { KeepsRows self.old.rows self.new.rows }
    {
        self.rows.carry(place.row, x);
        if moves(x) {
            let known = self.rows.known_at(place.row);
            self.deadlines
                .renew_silence(&self.setup, place.setup, known);
            self.deadlines
                .renew_lateness(&self.setup, place.setup, known);
        }
    }
}

// Where an account stands in the setup in force.
fn place_in(setup: &Option<Setup>, account: &Txt) -> Option<usize>
    ensures { IsPlaceIn account.now result setup.now }
{
    match setup {
        Some(setup) => setup.place(account),
        None => None,
    }
}
