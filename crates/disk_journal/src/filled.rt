// Reads of bytes below an area's length, of which the disk may give fewer.
ghost use Rattle.std.specs.Prelude.{◌≡◌, ◌≤◌, ◌+◌, ℕ, List, length, OnOk, IfErr, IfSome};
ghost use Rattle.arc_io.specs.Areas.{part};
ghost use Rattle.arc_io.specs.Causes.{IsCounted};
ghost use Rattle.arc_io.specs.Crashes.{IsQuiet};
ghost use Rattle.disk_journal.specs.Faults.{IsShown, IsOfContent, HasCause};
ghost use Rattle.disk_journal.specs.Reading.{IsFilled, IsPiece};

use crate::fault::OpenFault;
use arc_io::{Area, Disk, Failed};

// Fills the buffer with the bytes from the place on, all of which stand in the area. What the disk does not give counts as 00.
pub fn read_filled<D: Disk>(disk: &mut D, area: Area, at: u64, buf: &mut [u8]) -> Result<(), Failed>
    requires within { IfSome (D.seen disk.old).told (λ s. at + length buf.old ≤ length (part area s)) }
    ensures bytes { OnOk result (IfSome (D.seen disk.old).told (λ s. IsFilled (part area s) at buf.new)) }
    ensures quiet { IsQuiet (D.seen disk.old) (D.seen disk.new) }
    ensures cause { IsCounted (D.seen disk.old).faults (D.seen disk.new).faults result }
{
    let given = disk.read_at(area, at, buf)?;
    buf[given..].fill(0);
    Ok(())
}

// The same, with the disk's counts where it failed.
pub fn read<D: Disk>(
    disk: &mut D,
    before: u64,
    area: Area,
    at: u64,
    buf: &mut [u8],
) -> Result<(), OpenFault>
    requires before { before ≤ (D.seen disk.old).faults }
    requires within { IfSome (D.seen disk.old).told (λ s. at + length buf.old ≤ length (part area s)) }
    ensures bytes { OnOk result (IfSome (D.seen disk.old).told (λ s. IsFilled (part area s) at buf.new)) }
    ensures quiet { IsQuiet (D.seen disk.old) (D.seen disk.new) }
    ensures later { (D.seen disk.old).faults ≤ (D.seen disk.new).faults }
    ensures met_none { OnOk result ((D.seen disk.new).faults ≡ (D.seen disk.old).faults) }
    ensures counts { IfErr result (λ f. HasCause f before (D.seen disk.new).faults) }
    ensures shown { IfErr result (λ f. (IsOfContent f → ⊥) × ((bytes : List ℕ) → IsShown f bytes)) }
{
    match read_filled(disk, area, at, buf) {
        Ok(()) => Ok(()),
        Err(Failed) => Err(OpenFault::DiskFault {
            before,
            now: disk.faults(),
        }),
    }
}

// The same of the buffer's front, so many bytes of it.
pub fn read_front<D: Disk>(
    disk: &mut D,
    before: u64,
    area: Area,
    at: u64,
    count: usize,
    buf: &mut [u8],
) -> Result<(), OpenFault>
    requires before { before ≤ (D.seen disk.old).faults }
    requires fits { count ≤ length buf.old }
    requires within { IfSome (D.seen disk.old).told (λ s. at + count ≤ length (part area s)) }
    ensures piece { OnOk result (IfSome (D.seen disk.old).told (λ s. IsPiece (part area s) at count buf.new)) }
    ensures quiet { IsQuiet (D.seen disk.old) (D.seen disk.new) }
    ensures later { (D.seen disk.old).faults ≤ (D.seen disk.new).faults }
    ensures met_none { OnOk result ((D.seen disk.new).faults ≡ (D.seen disk.old).faults) }
    ensures counts { IfErr result (λ f. HasCause f before (D.seen disk.new).faults) }
    ensures shown { IfErr result (λ f. (IsOfContent f → ⊥) × ((bytes : List ℕ) → IsShown f bytes)) }
{
    read(disk, before, area, at, &mut buf[..count])
}
