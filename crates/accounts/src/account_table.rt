// The accounts that a text declares, by number and by place.
ghost use Rattle.std.specs.Prelude.{◌≡◌, ◌<◌, ◌≤◌, ◌++◌, [], ◌∷◌, length, slice_get, nat_lt, None, Some, IfOk, IfSome, OnOk};
ghost use Rattle.std.specs.Bool.{OnTrue};
ghost use Rattle.std.specs.List.{position};
ghost use Rattle.std.specs.Option.{option_map, option_copied};
ghost use Rattle.accounts.specs.Entries.{is_numbered, find_number, changed, with_window, with_keyholder, with_plan};
ghost use Rattle.accounts.specs.Said.{IsValidWindow};

use crate::entry::Entry;
use crate::keyholders::Keyholder;
use crate::plan_list::ClassPlan;
use arc_data::{Txt, Window};
use indexmap::IndexMap;
use std::alloc::{AllocError, Global};
use std::marker::Model;

/// Accounts in the order of their lines, no two of one number. Contracts see them as a list.
#[derive(Drop)]
pub(crate) struct AccountTable {
    by_number: IndexMap<Txt, Entry>,
}

impl Model for AccountTable {
    ghost use Rattle.std.specs.Prelude.{List};
    ghost use Rattle.accounts.specs.declared.entry.Entry.{Entry};
    ghost use Rattle.accounts.specs.Entries.{entry_number};
    ghost use Rattle.accounts.specs.Keyed.{IsKeyed};
    ghost use Rattle.indexmap.specs.IndexMap.{values};

    ghost Value = { List Entry };

    ghost view = { λ t. values t.by_number };

    ghost invariant = { λ t. IsKeyed entry_number t.by_number.entries };
}

impl AccountTable {
    /// No accounts. Takes no memory.
    pub(crate) fn new(alloc: Global) -> AccountTable
        ensures { result ≡ [] }
    {
        AccountTable {
            by_number: IndexMap::new(alloc),
        }
    }

    /// How many there are.
    pub(crate) fn count(&self) -> usize
        ensures { result ≡ length self.now }
    {
        self.by_number.len()
    }

    /// The place of the account with this number.
    pub(crate) fn place(&self, number: &Txt) -> Option<usize>
        ensures place { result ≡ position (is_numbered number.now) self.now }
        ensures within { IfSome result (λ place. place < length self.now) }
        ensures there { IfSome result (λ place. slice_get self.now place ≡ find_number number.now self.now) }
    {
        self.by_number.get_index_of(number)
    }

    /// The account at a place.
    pub(crate) fn at(&self, place: usize) -> &Entry
        requires { place < length self.now }
        ensures { slice_get self.now place ≡ Some result.now }
    {
        &self.by_number[place]
    }

    /// The account with this number.
    pub(crate) fn find(&self, number: &Txt) -> Option<&Entry>
        ensures { option_copied result ≡ find_number number.now self.now }
    {
        self.by_number.get(number)
    }

    /// Puts an account last whose number none has yet.
    pub(crate) fn push(&mut self, entry: Entry) -> Result<(), AllocError>
        requires { find_number entry.account.number self.old ≡ None }
        ensures { OnOk result (self.new ≡ self.old ++ entry ∷ []) }
    {
        self.by_number.insert(entry.number(), entry)?;
        Ok(())
    }

    /// Puts a window last in the opening hours of the account at a place. False exactly where it has 28.
    pub(crate) fn add_window(&mut self, place: usize, window: Window) -> bool
        requires place { place < length self.old }
        requires window { IsValidWindow window }
        ensures room { IfSome (slice_get self.old place) (λ e. result ≡ nat_lt (length e.account.week.windows) 28) }
        ensures added { OnTrue result (IfSome (slice_get self.old place)
            (λ e. self.new ≡ changed e.account.number (with_window window) self.old)) }
    {
        let entry = &mut self.by_number[place];
        entry.add_window(window)
    }

    /// Puts a keyholder last of the account at a place. False exactly where it has four.
    pub(crate) fn add_keyholder(&mut self, place: usize, keyholder: Keyholder) -> bool
        requires { place < length self.old }
        ensures room { IfSome (slice_get self.old place) (λ e. result ≡ nat_lt (length e.keyholders) 4) }
        ensures added { OnTrue result (IfSome (slice_get self.old place)
            (λ e. self.new ≡ changed e.account.number (with_keyholder keyholder) self.old)) }
    {
        let entry = &mut self.by_number[place];
        entry.add_keyholder(keyholder)
    }

    /// Puts a plan last of the account at a place.
    pub(crate) fn add_plan(&mut self, place: usize, plan: ClassPlan) -> Result<(), AllocError>
        requires { place < length self.old }
        ensures { OnOk result (IfSome (slice_get self.old place)
            (λ e. self.new ≡ changed e.account.number (with_plan plan) self.old)) }
    {
        let entry = &mut self.by_number[place];
        entry.add_plan(plan)
    }

    /// A copy.
    pub(crate) fn copy(&self) -> Result<AccountTable, AllocError>
        ensures { IfOk result (λ table. table ≡ self.now) }
    {
        Ok(AccountTable {
            by_number: self.by_number.clone()?,
        })
    }
}
