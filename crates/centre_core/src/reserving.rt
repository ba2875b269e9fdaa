// The memory that an entry needs.
ghost use Rattle.std.specs.Prelude.{◌≡◌, ◌≤◌, ◌+◌, ◌∷◌, [], List, ℕ, OnOk, length, map, max};
ghost use Rattle.centre_core.specs.Kept.{NoLess};
ghost use Rattle.centre_core.specs.Taken.{IsFoundFor, accounts_of};
ghost use Rattle.centre_rules.specs.Marks.{Carried};
ghost use Rattle.centre_rules.specs.Summary.{AccountRow};
ghost use Rattle.known_accounts.specs.Rows.{IsRowOf, lacking};

use crate::centre::Centre;
use arc_data::{Carried, Event, Memory, Txt};
use known_accounts::{AccountRows, FoundAccount, SupervisedAccounts};
use std::alloc::Global;

impl Centre {
    // Takes the memory for an event that carries these signals: for an incident of each, and for the rows that lack, and no more of these.
    // The account of a message or a heartbeat was looked up. The error is want of memory.
    pub(crate) fn reserve(
        &mut self,
        alloc: Global,
        event: &Event,
        carried: &[Carried],
        found: FoundAccount,
    ) -> Result<(), Memory>
        requires few { length carried.now ≤ 4000 }
        requires found { IsFoundFor event.now found self.old.sum.text self.old.sum.rows }
        ensures entries { self.new.entries ≡ self.old.entries }
        ensures sum { self.new.sum ≡ self.old.sum }
        ensures rooms { NoLess self.old.rooms self.new.rooms }
        ensures accounts { OnOk result (length (lacking self.new.sum.rows (accounts_of event.now carried.now)) ≤ self.new.rooms.accounts) }
        ensures incidents { OnOk result (length self.new.sum.incidents + length carried.now ≤ self.new.rooms.incidents) }
        ensures most { self.new.rooms.accounts ≤ max self.old.rooms.accounts (length (lacking self.old.sum.rows (accounts_of event.now carried.now))) }
    {
        let rows = rows_for(&self.accounts, event, carried, found);
        self.queued.reserve(carried.len())?;
        self.accounts.reserve(alloc, rows)
    }
}

// How many rows lack for an event that carries these signals. The account of a message or a heartbeat was looked up.
fn rows_for(
    accounts: &SupervisedAccounts,
    event: &Event,
    carried: &[Carried],
    found: FoundAccount,
) -> usize
    requires few { length carried.now ≤ 4000 }
    requires found { IsFoundFor event.now found accounts.now.text accounts.now.rows.rows }
    ensures { result ≡ length (lacking accounts.now.rows.rows (accounts_of event.now carried.now)) }
{
    let rows = accounts.rows();
    match event {
        Event::Message { .. } | Event::Beat { .. } => lacks(found.row),
        _ => rows_of(rows, carried),
    }
}

// How many rows lack for the accounts of these signals.
fn rows_of(rows: &AccountRows, carried: &[Carried]) -> usize
    requires { length carried.now ≤ 4000 }
    ensures { result ≡ length (lacking rows.now.rows (map (λ (x : Carried). x.account) carried.now)) }
{
    let mut count = 0;
    for x in carried {
        count += row_for(rows, &x.account);
    }
    count
}

// How many rows lack for an account: one, or none.
fn row_for(rows: &AccountRows, account: &Txt) -> usize
    ensures value { result ≡ length (lacking rows.now.rows (account.now ∷ [])) }
    ensures one { result ≤ 1 }
{
    lacks(rows.row_of(account))
}

// The same of an account whose row was looked up.
fn lacks(row: Option<usize>) -> usize
    ensures value { (account : List ℕ) (rows : List AccountRow) → IsRowOf account row rows → result ≡ length (lacking rows (account ∷ [])) }
    ensures one { result ≤ 1 }
{
    if row.is_some() { 0 } else { 1 }
}
