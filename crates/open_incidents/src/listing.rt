// The answer to a question for the open incidents, with their holders at the moment.
ghost use Rattle.std.specs.Prelude.{◌≡◌, ◌≤◌, take, length, OnOk, IfOk};
ghost use Rattle.std.specs.List.{position, position_or_len};
ghost use Rattle.centre_rules.specs.Desks.{on_list, row_of};
ghost use Rattle.centre_rules.specs.Standing.{stands_at, standing_of};
ghost use Rattle.open_incidents.specs.Listings.{comes_before, put_in};

use crate::standing::holder_at;
use arc_data::{Incident, Listing, Memory, Reply, Row};
use incidents::Table;
use std::alloc::Global;

/// How many incidents are open, and the first 16 by priority and number. The error is want of memory.
pub fn list(alloc: Global, table: &Table, at: u64, lapse: Option<u64>) -> Result<Reply, Memory>
    ensures { IfOk result (λ reply. reply ≡ on_list (standing_of lapse at table.now.incidents)) }
{
    let mut first = Vec::new(alloc);
    let slots = table.slots();
    for k in (0..slots.len()).rev() {
        if let Some(i) = slots[k].incident() {
            put(&mut first, row(i, at, lapse))?;
        }
    }
    Ok(Reply::Listed(Listing::of(table.count() as u64, first)))
}

// The row of an incident.
fn row(i: &Incident, at: u64, lapse: Option<u64>) -> Row
    ensures { result ≡ row_of (stands_at lapse at i.now) }
{
    Row {
        number: i.number,
        class: i.class,
        account: i.account,
        holder: holder_at(i, at, lapse),
    }
}

// Puts a row in its place among the first 16.
fn put(first: &mut Vec<Row>, row: Row) -> Result<(), Memory>
    ensures { OnOk result (first.new.items ≡ take 16 (put_in row first.old.items)) }
{
    let place = place_of(first, &row);
    let Ok(()) = first.insert(place, row) else {
        return Err(Memory);
    };
    first.truncate(16);
    Ok(())
}

// The place before the first row that comes after this one.
fn place_of(rows: &[Row], row: &Row) -> usize
    ensures place { result ≡ position_or_len (comes_before row.now) rows.now }
    ensures within { result ≤ length rows.now }
{
    match first_after(rows, row) {
        Some(place) => place,
        None => rows.len(),
    }
}

fn first_after(rows: &[Row], row: &Row) -> Option<usize>
    ensures { result ≡ position (comes_before row.now) rows.now }
{
    rows.iter().position(|other| is_before(row, other))
}

// By priority, and of one priority by number.
fn is_before(i: &Row, j: &Row) -> bool
    ensures { result ≡ comes_before i.now j.now }
{
    let first = i.class.priority();
    let second = j.class.priority();
    first < second || first == second && i.number < j.number
}
