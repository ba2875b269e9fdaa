// Writing the report.
ghost use Rattle.std.specs.Prelude.{◌++◌, ◌∷◌, [], decimal};
ghost use Rattle.std.specs.List.{flat_map};
ghost use Rattle.arc_io.specs.Told.{Puts};
ghost use Rattle.centre_rules.specs.Standing.{standing_of};
ghost use Rattle.incidents.specs.Slots.{open_of};
ghost use Rattle.arc_report.specs.Reports.{incident_line, table_of, report_of};
ghost use Rattle.desk_wire.specs.Replies.{ended};

use arc_data::Reply;
use arc_io::{Failed, Sink, put};
use centre_core::Centre;
use desk_wire::print;
use incidents::{Slot, Table};
use itoa::Buffer;
use open_incidents::orders::view;

/// Writes how many entries are recorded and how many incidents are open, a line each, and then the line of each open incident in order
/// of number, as a desk is shown it at the moment of the last entry that is recorded. It takes no memory, and writes a line at a time. Failed comes only where the sink failed, and then
/// the report was not written whole.
pub fn report<K: Sink>(centre: &Centre, out: &mut K) -> Result<(), Failed>
    ensures { Puts (K.seen out.old) (K.seen out.new) result (report_of centre.now.sum) }
{
    match put_count(out, b"recorded ", centre.recorded()) {
        Ok(()) => put_table(out, centre.table(), centre.last(), centre.lapse()),
        Err(fault) => Err(fault),
    }
}

// Writes how many incidents are open, and the line of each as it stands at a moment.
fn put_table<K: Sink>(out: &mut K, table: &Table, at: u64, lapse: Option<u64>) -> Result<(), Failed>
    ensures { Puts (K.seen out.old) (K.seen out.new) result (table_of (standing_of lapse at table.now.incidents)) }
{
    match put_count(out, b"open ", table.count() as u64) {
        Ok(()) => put_incidents(out, table.slots(), at, lapse),
        Err(fault) => Err(fault),
    }
}

// Writes a word, a number and the end of the line.
fn put_count<K: Sink>(out: &mut K, word: &[u8], count: u64) -> Result<(), Failed>
    ensures { Puts (K.seen out.old) (K.seen out.new) result (word.now ++ ended (decimal count)) }
{
    match put(out, word) {
        Ok(()) => put_number(out, count),
        Err(fault) => Err(fault),
    }
}

// Writes a number and the end of the line.
fn put_number<K: Sink>(out: &mut K, number: u64) -> Result<(), Failed>
    ensures { Puts (K.seen out.old) (K.seen out.new) result (ended (decimal number)) }
{
    let mut buffer = Buffer::new();
    match put(out, buffer.format(number).as_bytes()) {
        Ok(()) => put(out, b"\n"),
        Err(fault) => Err(fault),
    }
}

// Writes the line of each open incident as it stands at a moment.
fn put_incidents<K: Sink>(
    out: &mut K,
    slots: &[Slot],
    at: u64,
    lapse: Option<u64>,
) -> Result<(), Failed>
    ensures { Puts (K.seen out.old) (K.seen out.new) result (flat_map incident_line (standing_of lapse at (open_of slots.now))) }
{
    for slot in slots {
        match put_slot(out, slot, at, lapse) {
            Ok(()) => {}
            Err(fault) => return Err(fault),
        }
    }
    Ok(())
}

// Writes the line of the incident that is open at a place, if there is one.
fn put_slot<K: Sink>(out: &mut K, slot: &Slot, at: u64, lapse: Option<u64>) -> Result<(), Failed>
    ensures { Puts (K.seen out.old) (K.seen out.new) result (flat_map incident_line (standing_of lapse at (open_of (slot.now ∷ [])))) }
{
    match slot.incident() {
        Some(i) => print(&Reply::Shown(view(i, at, lapse)), out),
        None => Ok(()),
    }
}
