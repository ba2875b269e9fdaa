// Stores over disks in memory on which runs have begun, and gates before them.
ghost use Rattle.std.specs.Prelude.{◌<◌, ◌^◌};
ghost use Rattle.centre_core.specs.Setting.{IsSetting};

use arc_io::MemDisk;
use centre_core::Setup;
use centre_store::Store;
use disk_journal::Limits;
use line_gate::Blank;
use std::alloc::Global;
use std::process::Abort;
use test_fixtures::moments::BEGIN;
use test_fixtures::stores::opened;

/// The store that a disk is opened as, on which a run has begun.
pub(crate) fn begun(
    rt: &impl Abort,
    alloc: Global,
    disk: MemDisk,
    limits: Limits,
    setup: &[u8],
) -> Store<MemDisk>
    requires { limits.bytes < 2 ^ 32 }
    ensures { IsSetting result.state.sum.text }
{
    let mut store = opened(alloc, disk, limits).expect(rt, "opened");
    let setup = Setup::read(alloc, setup).expect(rt, "a setup");
    store.begin(alloc, setup, BEGIN).expect(rt, "begun");
    store
}

/// A gate before such a store.
pub(crate) fn blank_of(
    rt: &impl Abort,
    alloc: Global,
    disk: MemDisk,
    limits: Limits,
    setup: &[u8],
) -> Blank<MemDisk>
    requires { limits.bytes < 2 ^ 32 }
{
    let store = begun(rt, alloc, disk, limits, setup);
    match Blank::new(alloc, store) {
        Ok(blank) => blank,
        Err(_) => panic!(rt; "no memory"),
    }
}
