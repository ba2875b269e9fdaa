// The deadlines of the accounts of a setup, by their places.
ghost use Rattle.std.specs.Prelude.{◌≡◌, ◌<◌, List, ℕ, length, map, replicate, slice_get, slice_set, None, IfOk, IfSome, IsOk};
ghost use Rattle.alarm_rules.specs.Setups.{meaning, setup_of};
ghost use Rattle.centre_rules.specs.History.{IsMoment};
ghost use Rattle.known_accounts.specs.Rows.{RowsValue, Tells, row_in};
ghost use Rattle.known_accounts.specs.Supervised.{AreDeadlines, AreOpenedAtMoments, IsPlaceIn, KeepsOthers, accounts_in, silence_of, lateness_of};
ghost use Rattle.known_accounts.specs.Roomed.{HasPlaces, IsRenewed};

use crate::account_rows::AccountRows;
use crate::due::{lateness, silence};
use crate::row::Known;
use crate::uncounted::set;
use accounts::Setup;
use arc_data::Memory;
use std::alloc::Global;
use supervision::Watch;

/// One deadline of silence and one of lateness, or none, for each account of a setup.
pub(crate) struct Deadlines {
    pub silence: Watch,
    pub lateness: Watch,
}

// Written out: one call wherever one is dropped, where a derived drop is spelled out at each exit.
impl Drop for Deadlines {
    fn drop(self) {
        let Deadlines { silence, lateness } = self;
        drop(silence);
        drop(lateness);
    }
}

impl Deadlines {
    /// No place has a deadline. Takes no memory.
    pub(crate) fn new(alloc: Global) -> Deadlines
        ensures { HasPlaces 0 result }
    {
        Deadlines {
            silence: Watch::new(alloc),
            lateness: Watch::new(alloc),
        }
    }

    /// Room for so many places, none of which has a deadline. The error is want of memory.
    pub(crate) fn with_places(alloc: Global, places: usize) -> Result<Deadlines, Memory>
        ensures { IfOk result (HasPlaces places) }
    {
        let mut deadlines = Deadlines::new(alloc);
        deadlines.silence.reserve(places)?;
        deadlines.lateness.reserve(places)?;
        Ok(deadlines)
    }

    /// Sets the deadlines of the account at a place.
    fn renew(&mut self, setup: &Setup, rows: &AccountRows, place: usize)
        requires within { place < length (meaning setup.now).accounts }
        requires places { HasPlaces (length (meaning setup.now).accounts) self.old }
        requires openings { AreOpenedAtMoments rows.now }
        ensures renewed { IfSome (slice_get (meaning setup.now).accounts place) (λ a. IsRenewed place a rows.now self.old self.new) }
        ensures places { HasPlaces (length (meaning setup.now).accounts) self.new }
    {
        let account = setup.account(place);
        let known = rows.known(&account.number);
        set(&mut self.silence, place, silence(account, known));
        set(&mut self.lateness, place, lateness(account, known));
    }

    /// Sets the deadlines of all accounts.
    pub(crate) fn renew_all(&mut self, setup: &Setup, rows: &AccountRows)
        requires places { HasPlaces (length (meaning setup.now).accounts) self.old }
        requires openings { AreOpenedAtMoments rows.now }
        ensures { AreDeadlines (meaning setup.now).accounts rows.now self.new.silence self.new.lateness }
    {
        for place in 0..setup.count() {
            self.renew(setup, rows, place);
        }
    }

    /// Sets the deadline of silence of an account, where it stands in the setup: this is known of it, and of the others the same as before.
    pub(crate) fn renew_silence(
        &mut self,
        setup: &Option<Setup>,
        place: Option<usize>,
        known: Known,
    )
        requires valid { IfSome setup.now (λ x. IsOk (setup_of x)) }
        requires places { length self.old.silence ≡ length (accounts_in setup.now) }
        requires within { IfSome place (λ p. p < length (accounts_in setup.now)) }
        ensures silence { (account : List ℕ) (v w : RowsValue) → IsPlaceIn account place setup.now → Tells (row_in w account) known
            → KeepsOthers account v w
            → self.old.silence ≡ map (silence_of v) (accounts_in setup.now)
            → self.new.silence ≡ map (silence_of w) (accounts_in setup.now) }
        ensures lateness { self.new.lateness ≡ self.old.lateness }
    {
        if let Some(setup) = setup {
            if let Some(place) = place {
                let deadline = silence(setup.account(place), known);
                set(&mut self.silence, place, deadline);
            }
        }
    }

    /// Sets the deadline of lateness of an account, where it stands in the setup: this is known of it, and of the others the same as before.
    pub(crate) fn renew_lateness(
        &mut self,
        setup: &Option<Setup>,
        place: Option<usize>,
        known: Known,
    )
        requires valid { IfSome setup.now (λ x. IsOk (setup_of x)) }
        requires places { length self.old.lateness ≡ length (accounts_in setup.now) }
        requires within { IfSome place (λ p. p < length (accounts_in setup.now)) }
        requires opening { IfSome known.opening (λ o. IsMoment o.at) }
        ensures silence { self.new.silence ≡ self.old.silence }
        ensures lateness { (account : List ℕ) (v w : RowsValue) → IsPlaceIn account place setup.now → Tells (row_in w account) known
            → KeepsOthers account v w
            → self.old.lateness ≡ map (lateness_of v) (accounts_in setup.now)
            → self.new.lateness ≡ map (lateness_of w) (accounts_in setup.now) }
    {
        if let Some(setup) = setup {
            if let Some(place) = place {
                let deadline = lateness(setup.account(place), known);
                set(&mut self.lateness, place, deadline);
            }
        }
    }
}
