// What a mirror's ask is answered.
ghost use Rattle.std.specs.Prelude.{◌≡◌, ◌≤◌, ◌<◌, ◌⊎◌, ◌^◌, ◌++◌, [], List, OnOk, OnErr, IfErr};
ghost use Rattle.arc_io.specs.Crashes.{IsQuiet};
ghost use Rattle.centre_rules.specs.Summary.{Summary};
ghost use Rattle.centre_rules.specs.History.{Entry};
ghost use Rattle.centre_store.specs.Orders.{IsDownWhereFailed};
ghost use Rattle.centre_store.specs.StoreHalls.{is_told};
ghost use Rattle.centre_store.specs.Stores.{HasFailed, StoreStands, StandsOn};
ghost use Rattle.disk_journal.specs.Journal.{IsReadOf};
ghost use Rattle.mirror_centre.specs.Answers.{answer_at, IsAnsweredWith, Answers};
ghost use Rattle.mirror_centre.specs.Messages.{answer_text};

use crate::messages::{put_count, put_end, put_record};
use arc_data::{Blob, Memory};
use arc_io::Disk;
use centre_core::Stop;
use centre_store::{Found, Store};
use std::alloc::Global;

/// Answers the ask of a mirror that has so many recorded entries, at most 281,474,976,710,655: with the record of the next one; or that
/// it is summed up, and how many are; or that there is none yet. The answer takes the place of what `out` holds, which is empty behind a
/// stop. Down comes where the disk has failed since the opening, or fails now.
pub fn answer<D: Disk>(
    store: &mut Store<D>,
    alloc: Global,
    n: u64,
    out: &mut Vec<u8>,
) -> Result<(), Stop>
    requires few { n < 2 ^ 48 }

    ensures answered { OnOk result ((b : Summary) (h : List Entry) → StoreStands D.seen b store.old h
        → IsAnsweredWith D.seen b h store.old n out.new.items) }
    ensures refused { OnErr result (out.new.items ≡ []) }

    // Nothing is written, and the store stands for what it stood for.
    ensures stands { StandsOn D.seen store.old store.new }
    ensures state { store.new.state ≡ store.old.state }
    ensures same { IsReadOf store.old.journal store.new.journal }
    ensures quiet { IsQuiet (D.seen store.old.journal.disk) (D.seen store.new.journal.disk) }

    // What the law of a mirror goes by.
    ensures answers { OnOk result (Answers D.seen store.old store.new n out.new.items) }

    ensures cause { IfErr result (λ s. (s ≡ Stop.Memory)
        ⊎ (HasFailed D.seen store.new × (s ≡ Stop.Down store.new.at_open (D.seen store.new.journal.disk).faults))) }
    ensures down { IsDownWhereFailed D.seen store.new result }
    ensures already { HasFailed D.seen store.old → store.new ≡ store.old }
    ensures tells { is_told (D.seen store.new.journal.disk).told ≡ is_told (D.seen store.old.journal.disk).told }
    ensures at_open { store.new.at_open ≡ store.old.at_open }
    ensures limits { store.new.journal.limits ≡ store.old.journal.limits }
    ensures later { (D.seen store.old.journal.disk).faults ≤ (D.seen store.new.journal.disk).faults }
    ensures met_none { OnOk result ((D.seen store.new.journal.disk).faults ≡ (D.seen store.old.journal.disk).faults) }
{
    out.clear();
    let mut body = Blob::new(alloc);
    let found = store.body(alloc, n + 1, &mut body)?;
    match put_found(found, n, body.bytes(), store.since(), out) {
        Ok(()) => Ok(()),
        Err(Memory) => {
            out.clear();
            Err(Stop::Memory)
        }
    }
}

// Puts the answer last that goes with what was found behind so many. The error is want of memory.
fn put_found(found: Found, n: u64, body: &[u8], since: u64, out: &mut Vec<u8>) -> Result<(), Memory>
    requires few { n < 2 ^ 48 }
    ensures { OnOk result (out.new.items ≡ out.old.items ++ answer_text (answer_at found since n body.now)) }
{
    match found {
        Found::Body => put_record(n + 1, body, out),
        Found::InSummary => put_count(since, out),
        Found::Ahead => put_end(out),
    }
}
