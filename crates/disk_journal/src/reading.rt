// Reading the body of a record again.
ghost use Rattle.std.specs.Prelude.{◌≡◌, ◌≤◌, ◌<◌, ◌+◌, ◌↔◌, [], ℕ, List, Option, length, drop, slice_index_or, OnOk, IfOk, IfErr, IfSome, true};
ghost use Rattle.arc_io.specs.Areas.{part};
ghost use Rattle.arc_io.specs.Crashes.{IsQuiet};
ghost use Rattle.disk_journal.specs.Again.{HasRecordAt};
ghost use Rattle.disk_journal.specs.Faults.{HasReadCounts, IsFaultOfReading};
ghost use Rattle.disk_journal.specs.Journal.{IsGateBehind};
ghost use Rattle.disk_journal.specs.Reading.{IsFilled};
ghost use Rattle.disk_journal.specs.Records.{length_in};

use crate::fault::BodyFault;
use crate::filled::read_filled;
use arc_io::{Area, Disk, Failed};
use std::alloc::Global;

// Fills the buffer with the bytes from the place on, with the disk's counts where it failed.
fn read<D: Disk>(
    disk: &mut D,
    before: u64,
    area: Area,
    at: u64,
    buf: &mut [u8],
) -> Result<(), BodyFault>
    requires before { before ≤ (D.seen disk.old).faults }
    requires within { IfSome (D.seen disk.old).told (λ s. at + length buf.old ≤ length (part area s)) }
    ensures bytes { OnOk result (IfSome (D.seen disk.old).told (λ s. IsFilled (part area s) at buf.new)) }
    ensures quiet { IsQuiet (D.seen disk.old) (D.seen disk.new) }
    ensures later { (D.seen disk.old).faults ≤ (D.seen disk.new).faults }
    ensures met_none { OnOk result ((D.seen disk.new).faults ≡ (D.seen disk.old).faults) }
    ensures cause { IfErr result IsFaultOfReading }
    ensures counts { IfErr result (HasReadCounts before (D.seen disk.new).faults) }
{
    match read_filled(disk, area, at, buf) {
        Ok(()) => Ok(()),
        Err(Failed) => Err(BodyFault::DiskFault {
            before,
            now: disk.faults(),
        }),
    }
}

// The length of the body behind the gate at a place.
fn size_at<D: Disk>(disk: &mut D, before: u64, area: Area, at: u64) -> Result<u32, BodyFault>
    requires before { before ≤ (D.seen disk.old).faults }
    requires within { IfSome (D.seen disk.old).told (λ s. at + 5 ≤ length (part area s)) }
    ensures size { IfOk result (λ n. IfSome (D.seen disk.old).told (λ s. n ≡ length_in (drop (at + 1) (part area s)))) }
    ensures quiet { IsQuiet (D.seen disk.old) (D.seen disk.new) }
    ensures later { (D.seen disk.old).faults ≤ (D.seen disk.new).faults }
    ensures met_none { OnOk result ((D.seen disk.new).faults ≡ (D.seen disk.old).faults) }
    ensures cause { IfErr result IsFaultOfReading }
    ensures counts { IfErr result (HasReadCounts before (D.seen disk.new).faults) }
{
    let mut gate_and_size = [0; 5];
    read(disk, before, area, at, &mut gate_and_size)?;
    let mut size = [0; 4];
    size.copy_from_slice(&gate_and_size[1..]);
    Ok(u32::from_be_bytes(size))
}

// Walks from the gate of a record to that of another one behind it, or of the same. Where the disk tells nothing of its bytes, the lengths
// that it gives can add up to anything.
fn walk<D: Disk>(
    disk: &mut D,
    before: u64,
    area: Area,
    next: u64,
    place: u64,
    i: u64,
) -> Result<u64, BodyFault>
    requires before { before ≤ (D.seen disk.old).faults }
    requires ahead { next ≤ i }
    requires stands { (version : ℕ) × (summary : Option (List ℕ)) × (bodies : List (List ℕ)) × (i < length bodies)
        × HasRecordAt (D.seen disk.old).told area version summary bodies next place }
    ensures found { IfOk result (λ at. (version : ℕ) (summary : Option (List ℕ)) (bodies : List (List ℕ)) → i < length bodies
        → HasRecordAt (D.seen disk.old).told area version summary bodies next place
        → HasRecordAt (D.seen disk.old).told area version summary bodies i at) }
    ensures quiet { IsQuiet (D.seen disk.old) (D.seen disk.new) }
    ensures later { (D.seen disk.old).faults ≤ (D.seen disk.new).faults }
    ensures met_none { OnOk result ((D.seen disk.new).faults ≡ (D.seen disk.old).faults) }
    ensures cause { IfErr result IsFaultOfReading }
    ensures counts { IfErr result (HasReadCounts before (D.seen disk.new).faults) }
{
    let mut at = place;
    for _ in next..i {
        let size = size_at(disk, before, area, at)?;
        at = at.saturating_add(5 + size as u64);
    }
    Ok(at)
}

// Reads the body behind the gate at a place.
fn read_body<D: Disk>(
    alloc: Global,
    disk: &mut D,
    before: u64,
    area: Area,
    at: u64,
) -> Result<Vec<u8>, BodyFault>
    requires before { before ≤ (D.seen disk.old).faults }
    requires stands { (version : ℕ) × (summary : Option (List ℕ)) × (bodies : List (List ℕ)) × (i : ℕ)
        × HasRecordAt (D.seen disk.old).told area version summary bodies i at }
    ensures body { IfOk result (λ body. (version : ℕ) (summary : Option (List ℕ)) (bodies : List (List ℕ)) (i : ℕ)
        → HasRecordAt (D.seen disk.old).told area version summary bodies i at
        → IfSome (D.seen disk.old).told (λ _. body.items ≡ slice_index_or bodies i [])) }
    ensures quiet { IsQuiet (D.seen disk.old) (D.seen disk.new) }
    ensures later { (D.seen disk.old).faults ≤ (D.seen disk.new).faults }
    ensures met_none { OnOk result ((D.seen disk.new).faults ≡ (D.seen disk.old).faults) }
    ensures no_fault { IfErr result (λ f. (IsFaultOfReading f → ⊥) → (D.seen disk.new).faults ≡ (D.seen disk.old).faults) }
    ensures counts { IfErr result (HasReadCounts before (D.seen disk.new).faults) }
{
    let size = size_at(disk, before, area, at)?;
    let Ok(mut body) = vec![in alloc; 0; size as usize] else {
        return Err(BodyFault::Memory);
    };
    read(disk, before, area, at.saturating_add(5), &mut body)?;
    Ok(body)
}

// Walks from the gate of a record to that of record i, and reads its body. The place of the gate behind it, and the body.
pub fn find_body<D: Disk>(
    alloc: Global,
    disk: &mut D,
    before: u64,
    area: Area,
    next: u64,
    place: u64,
    i: u64,
) -> Result<(u64, Vec<u8>), BodyFault>
    requires before { before ≤ (D.seen disk.old).faults }
    requires ahead { next ≤ i }
    requires stands { (version : ℕ) × (summary : Option (List ℕ)) × (bodies : List (List ℕ)) × (i < length bodies)
        × HasRecordAt (D.seen disk.old).told area version summary bodies next place }
    ensures body { IfOk result (λ r. (version : ℕ) (summary : Option (List ℕ)) (bodies : List (List ℕ)) → i < length bodies
        → HasRecordAt (D.seen disk.old).told area version summary bodies next place
        → IfSome (D.seen disk.old).told (λ _. r.1.items ≡ slice_index_or bodies i [])) }
    ensures behind { IfOk result (λ r. (version : ℕ) (summary : Option (List ℕ)) (bodies : List (List ℕ)) → i < length bodies
        → HasRecordAt (D.seen disk.old).told area version summary bodies next place
        → IsGateBehind (D.seen disk.old).told summary bodies (i + 1) r.0) }
    ensures quiet { IsQuiet (D.seen disk.old) (D.seen disk.new) }
    ensures later { (D.seen disk.old).faults ≤ (D.seen disk.new).faults }
    ensures met_none { OnOk result ((D.seen disk.new).faults ≡ (D.seen disk.old).faults) }
    ensures no_fault { IfErr result (λ f. (IsFaultOfReading f → ⊥) → (D.seen disk.new).faults ≡ (D.seen disk.old).faults) }
    ensures counts { IfErr result (HasReadCounts before (D.seen disk.new).faults) }
{
    let at = walk(disk, before, area, next, place, i)?;
    let body = read_body(alloc, disk, before, area, at)?;
    Ok((at.saturating_add(5 + body.len() as u64), body))
}

// The disk failed.
pub fn is_of_disk(fault: BodyFault) -> bool
    ensures { (result ≡ true) ↔ IsFaultOfReading fault }
{
    match fault {
        BodyFault::DiskFault { .. } => true,
        BodyFault::Memory => false,
    }
}
