// Reading an area from its front to its end, in large pieces, each byte once.
ghost use Rattle.std.specs.Prelude.{◌≡◌, ◌≤◌, ◌+◌, ◌-◌, ℕ, List, length, min, OnOk, IfOk, IfErr, IfSome, vec_len};
ghost use Rattle.arc_io.specs.Areas.{part};
ghost use Rattle.arc_io.specs.Crashes.{IsQuiet};
ghost use Rattle.disk_journal.specs.Faults.{IsShown, IsOfContent, HasCause};

use crate::fault::OpenFault;
use crate::filled::{read, read_front};
use arc_data::Memory;
use arc_io::{Area, Disk};
use std::alloc::Global;

// The last piece of an area that was read: so many bytes from this place on stand in the room's front.
#[derive(Drop)]
pub struct Window {
    room: Vec<u8>,
    at: u64,
    count: usize,
    ghost within: { count ≤ vec_len room },
}

impl Window {
    ghost use Rattle.disk_journal.specs.Reading.{IsFilled, IsPiece, Shows};

    // A window in which nothing stands yet, with room for so many bytes.
    pub fn new(alloc: Global, size: usize) -> Result<Window, Memory>
        ensures { IfOk result (λ w. w.count ≡ 0) }
    {
        match vec![in alloc; 0; size] {
            Ok(room) => Ok(Window {
                room,
                at: 0,
                count: 0,
            }),
            Err(_) => Err(Memory),
        }
    }

    // Copies what stands in the window from the place on, and answers how many bytes.
    fn give(&self, at: u64, buf: &mut [u8]) -> usize
        ensures bound { result ≤ length buf.new }
        ensures given { (bytes : List ℕ) → IsPiece bytes self.now.at self.now.count self.now.room.items → IsPiece bytes at result buf.new }
        ensures all { self.now.at ≡ at → result ≡ min (length buf.new) self.now.count }
    {
        if at < self.at || at - self.at >= self.count as u64 {
            return 0;
        }
        let from = (at - self.at) as usize;
        let count = buf.len().min(self.count - from);
        buf[..count].copy_from_slice(&self.room[from..from + count]);
        count
    }

    // Reads the next piece into the window, from a place in the area on.
    fn slide<D: Disk>(
        &mut self,
        disk: &mut D,
        before: u64,
        area: Area,
        len: u64,
        at: u64,
    ) -> Result<(), OpenFault>
        requires before { before ≤ (D.seen disk.old).faults }
        requires len { IfSome (D.seen disk.old).told (λ s. len ≡ length (part area s)) }
        requires within { at ≤ len }
        ensures place { OnOk result (self.new.at ≡ at) }
        ensures room { vec_len self.new.room ≡ vec_len self.old.room }
        ensures count { OnOk result (self.new.count ≡ min (vec_len self.new.room) (len - at)) }
        ensures piece { OnOk result (Shows area (D.seen disk.old).told self.new) }
        ensures quiet { IsQuiet (D.seen disk.old) (D.seen disk.new) }
        ensures later { (D.seen disk.old).faults ≤ (D.seen disk.new).faults }
        ensures met_none { OnOk result ((D.seen disk.new).faults ≡ (D.seen disk.old).faults) }
        ensures counts { IfErr result (λ f. HasCause f before (D.seen disk.new).faults) }
        ensures shown { IfErr result (λ f. (IsOfContent f → ⊥) × ((bytes : List ℕ) → IsShown f bytes)) }
    {
        let count = (len - at).min(self.room.len() as u64) as usize;
        self.count = 0;
        read_front(disk, before, area, at, count, &mut self.room)?;
        self.count = count;
        self.at = at;
        Ok(())
    }

    // Fills the buffer with the bytes from the place on, all of which stand in the area.
    pub fn fill<D: Disk>(
        &mut self,
        disk: &mut D,
        before: u64,
        area: Area,
        len: u64,
        at: u64,
        buf: &mut [u8],
    ) -> Result<(), OpenFault>
        requires before { before ≤ (D.seen disk.old).faults }
        requires len { IfSome (D.seen disk.old).told (λ s. len ≡ length (part area s)) }
        requires within { at + length buf.old ≤ len }
        requires piece { Shows area (D.seen disk.old).told self.old }
        ensures bytes { OnOk result (IfSome (D.seen disk.old).told (λ s. IsFilled (part area s) at buf.new)) }
        ensures piece { OnOk result (Shows area (D.seen disk.old).told self.new) }
        ensures quiet { IsQuiet (D.seen disk.old) (D.seen disk.new) }
        ensures later { (D.seen disk.old).faults ≤ (D.seen disk.new).faults }
        ensures met_none { OnOk result ((D.seen disk.new).faults ≡ (D.seen disk.old).faults) }
        ensures counts { IfErr result (λ f. HasCause f before (D.seen disk.new).faults) }
        ensures shown { IfErr result (λ f. (IsOfContent f → ⊥) × ((bytes : List ℕ) → IsShown f bytes)) }
    {
        let given = self.give(at, buf);
        if given == buf.len() {
            return Ok(());
        }
        self.fill_rest(
            disk,
            before,
            area,
            len,
            at + given as u64,
            &mut buf[given..],
        )?;
        Ok(())
    }

    // The same for bytes of which none stands in the window. What would take a whole window is read past it.
    fn fill_rest<D: Disk>(
        &mut self,
        disk: &mut D,
        before: u64,
        area: Area,
        len: u64,
        at: u64,
        buf: &mut [u8],
    ) -> Result<(), OpenFault>
        requires before { before ≤ (D.seen disk.old).faults }
        requires len { IfSome (D.seen disk.old).told (λ s. len ≡ length (part area s)) }
        requires within { at + length buf.old ≤ len }
        requires piece { Shows area (D.seen disk.old).told self.old }
        ensures bytes { OnOk result (IfSome (D.seen disk.old).told (λ s. IsFilled (part area s) at buf.new)) }
        ensures piece { OnOk result (Shows area (D.seen disk.old).told self.new) }
        ensures quiet { IsQuiet (D.seen disk.old) (D.seen disk.new) }
        ensures later { (D.seen disk.old).faults ≤ (D.seen disk.new).faults }
        ensures met_none { OnOk result ((D.seen disk.new).faults ≡ (D.seen disk.old).faults) }
        ensures counts { IfErr result (λ f. HasCause f before (D.seen disk.new).faults) }
        ensures shown { IfErr result (λ f. (IsOfContent f → ⊥) × ((bytes : List ℕ) → IsShown f bytes)) }
    {
        if buf.len() >= self.room.len() {
            return read(disk, before, area, at, buf);
        }
        self.slide(disk, before, area, len, at)?;
        let _ = self.give(at, buf);
        Ok(())
    }
}
