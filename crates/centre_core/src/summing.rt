// What is kept, as the bytes of its summary.
ghost use Rattle.std.specs.Prelude.{◌≡◌, ◌<◌, ◌++◌, ◌∷◌, [], ℕ, List, Some, true, length, map, slice_get, OnOk, OnErr};
ghost use Rattle.std.specs.List.{flat_map, list_any};
ghost use Rattle.std.specs.Option.{option_map};
ghost use Rattle.std.specs.Str.{bytes_eq};
ghost use Rattle.centre_rules.specs.Marks.{has_row};
ghost use Rattle.centre_rules.specs.Summary.{Summary};
ghost use Rattle.centre_rules.specs.History.{Entry, IsMoment};
ghost use Rattle.centre_rules.specs.State.{StandsFor};
ghost use Rattle.centre_rules.specs.Sums.{account_row, summary_of};
ghost use Rattle.incidents.specs.Slots.{open_of};
ghost use Rattle.known_accounts.specs.Supervised.{rows_sum};
ghost use Rattle.summary_rules.specs.Spelling.{row_text, incident_text, many_texts, summary_text};
ghost use Rattle.summary_codec.specs.Writing.{HaveGoodSteps};
ghost use Rattle.centre_core.specs.Summing.{IsSpelled};

use crate::centre::Centre;
use arc_data::{Memory, Txt};
use incidents::{Slot, Table};
use known_accounts::AccountRows;
use std::alloc::Global;
use summary_codec::{put_count, put_given, put_head, put_incident, put_row, put_setup};

impl Centre {
    /// Makes the vector the bytes in version 2 of the summary of what is kept, with this generation: that of each history for which
    /// the centre stands, also of one that begins over a summary with a spelling. Rows ascend by the bytes of their accounts. Beside
    /// the bytes it takes memory for a list of the accounts. The error is want of memory; the vector is then empty.
    pub fn summary(&self, alloc: Global, generation: u64, out: &mut Vec<u8>) -> Result<(), Memory>
        ensures spelled { OnOk result ((b : Summary) (h : List Entry) → IsSpelled b → StandsFor b self.now h → out.new.items ≡ summary_text 2 generation (summary_of b h)) }
        ensures moment { IsMoment self.now.sum.last }
        ensures refused { OnErr result (out.new.items ≡ []) }
    {
        out.clear();
        match self.put_summary(alloc, generation, out) {
            Ok(()) => Ok(()),
            Err(Memory) => {
                out.clear();
                Err(Memory)
            }
        }
    }

    fn put_summary(&self, alloc: Global, generation: u64, out: &mut Vec<u8>) -> Result<(), Memory>
        ensures spelled { OnOk result ((b : Summary) (h : List Entry) → IsSpelled b → StandsFor b self.now h → out.new.items ≡ out.old.items ++ summary_text 2 generation (summary_of b h)) }
        ensures moment { IsMoment self.now.sum.last }
    {
        let rows = self.accounts.rows();
        let accounts = rows.accounts(alloc)?;
        put_kept(
            generation,
            self.last,
            self.recorded,
            self.text(),
            rows,
            &accounts,
            self.queued.table(),
            out,
        )?;
        Ok(())
    }

    // The setup text in force.
    fn text(&self) -> Option<&[u8]>
        ensures { option_map (λ t. t.now) result ≡ self.now.sum.text }
    {
        match self.accounts.setup() {
            Some(setup) => Some(setup.text()),
            None => None,
        }
    }
}

// What is kept, with the rows of these accounts, behind a generation, the last moment and how many entries are recorded.
#[tactic(auto, unfolding(summary_rules::specs::Spelling::summary_text))]
fn put_kept(
    generation: u64,
    last: u64,
    recorded: u64,
    text: Option<&[u8]>,
    rows: &AccountRows,
    accounts: &[Txt],
    table: &Table,
    out: &mut Vec<u8>,
) -> Result<(), Memory>
    requires { (a : List ℕ) → list_any (λ x. bytes_eq x a) accounts.now ≡ has_row rows.now.rows a }
    ensures { OnOk result (HaveGoodSteps table.now.incidents → out.new.items ≡ out.old.items ++ summary_text 2 generation (record {
      last = last;
      recorded = recorded;
      opened = table.now.opened;
      start = rows.now.start;
      text = option_map (λ t. t.now) text.entry;
      rows = map (account_row (rows_sum rows.now) []) accounts.now;
      incidents = table.now.incidents;
    })) }
{
    put_head(generation, last, recorded, table.opened(), out)?;
    put_given(rows.last_start(), out)?;
    put_setup(text, out)?;
    put_rows(rows, accounts, out)?;
    put_incidents(table, out)?;
    Ok(())
}

// The rows of these accounts, with their count.
#[tactic(auto, unfolding(summary_rules::specs::Spelling::many_texts))]
fn put_rows(rows: &AccountRows, accounts: &[Txt], out: &mut Vec<u8>) -> Result<(), Memory>
    requires { (a : List ℕ) → list_any (λ x. bytes_eq x a) accounts.now ≡ has_row rows.now.rows a }
    ensures { OnOk result (out.new.items ≡ out.old.items ++ many_texts row_text (map (account_row (rows_sum rows.now) []) accounts.now)) }
{
    put_count(accounts.len(), out)?;
    for i in 0..accounts.len() {
        put_row_of(rows, account_at(accounts, i), out)?;
    }
    Ok(())
}

fn account_at(accounts: &[Txt], i: usize) -> &Txt
    requires { i < length accounts.now }
    ensures { slice_get accounts.now i ≡ Some result.now }
{
    &accounts[i]
}

// The row of an account that has one.
fn put_row_of(rows: &AccountRows, account: &Txt, out: &mut Vec<u8>) -> Result<(), Memory>
    requires { has_row rows.now.rows account.now ≡ true }
    ensures { OnOk result (out.new.items ≡ out.old.items ++ row_text (account_row (rows_sum rows.now) [] account.now)) }
{
    let Some(row) = rows.get(account) else {
        unreachable!()
    };
    put_row(
        account,
        row.heard,
        row.failed,
        row.opening,
        &row.window,
        out,
    )?;
    Ok(())
}

// The open incidents, with their count.
#[tactic(auto, unfolding(summary_rules::specs::Spelling::many_texts))]
fn put_incidents(table: &Table, out: &mut Vec<u8>) -> Result<(), Memory>
    ensures { OnOk result (HaveGoodSteps table.now.incidents → out.new.items ≡ out.old.items ++ many_texts (incident_text 2) table.now.incidents) }
{
    let slots = table.slots();
    put_count(table.count(), out)?;
    for slot in slots {
        put_slot(slot, out)?;
    }
    Ok(())
}

// The incident that is open at a place.
fn put_slot(slot: &Slot, out: &mut Vec<u8>) -> Result<(), Memory>
    ensures { OnOk result (HaveGoodSteps (open_of (slot.now ∷ [])) → out.new.items ≡ out.old.items ++ flat_map (incident_text 2) (open_of (slot.now ∷ []))) }
{
    match slot.incident() {
        Some(incident) => put_incident(incident, out),
        None => Ok(()),
    }
}
