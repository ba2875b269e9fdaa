// What no clause says of the store: that calls succeed, with worked bytes, at its limits, and after each stop and each fault.
ghost use Rattle.std.specs.Prelude.{◌<◌, ◌^◌};

mod checkpoints;
mod following;
mod groups;
mod moving;
mod opening;
mod schedules;
mod stops;
mod submitting;
mod summed;
mod told;
mod wild;

use arc_io::MemDisk;
use centre_store::Store;
use disk_journal::Limits;
use std::alloc::Global;
use std::process::Abort;
use test_fixtures::stores::opened;

// What a new area is given.
const FRESH: &[u8] = b"ARC JOURNAL 0002\0";

// An Adopt, a Start and a Message by the line `line`, at the moment 1000000000.
const AREA: &[u8] = b"ARC JOURNAL 0002\
    \x01\0\0\0\x1a\x01\0\0\0\0\x3b\x9a\xca\0\0\0\0\x0daccount 1234\n\
    \x01\0\0\0\x09\x02\0\0\0\0\x3b\x9a\xca\0\
    \x01\0\0\0\x26\x03\0\0\0\0\x3b\x9a\xca\0\x041234\0\x010\0\x01\x02\0\x0b1131 01 001\x04line\0";

// A store over a new disk, with these limits.
fn new_store(rt: &impl Abort, alloc: Global, limits: Limits) -> Store<MemDisk>
    requires { limits.bytes < 2 ^ 32 }
{
    let disk = MemDisk::new(alloc, Vec::new(alloc));
    opened(alloc, disk, limits).expect(rt, "opened")
}

// A new disk, whose call of this number fails.
fn failing_disk(rt: &impl Abort, alloc: Global, call: u64) -> MemDisk {
    let failing = [call].to_vec(alloc).expect(rt, "memory");
    MemDisk::new(alloc, failing)
}
