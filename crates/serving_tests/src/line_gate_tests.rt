// What no clause says: that calls succeed, and that what threads are told is what one thread is told.

pub(crate) mod calls;
mod events;
mod replay;
mod threads;

use crate::stores::blank_of;
use arc_io::MemDisk;
use disk_journal::{Limits, SHIPPED};
use line_gate::Blank;
use std::alloc::Global;
use std::process::Abort;

// A gate before a store in memory on which a run has begun. The disk's calls of these numbers fail.
fn blank(rt: &impl Abort, alloc: Global, setup: &[u8], failing: Vec<u64>) -> Blank<MemDisk> {
    let disk = MemDisk::new(alloc, failing);
    blank_of(rt, alloc, disk, SHIPPED, setup)
}

// The same over a sound disk, with a journal that has room for so many records.
fn short_blank(rt: &impl Abort, alloc: Global, setup: &[u8], records: u64) -> Blank<MemDisk> {
    let disk = MemDisk::new(alloc, Vec::new(alloc));
    let limits = Limits { records, ..SHIPPED };
    blank_of(rt, alloc, disk, limits, setup)
}
