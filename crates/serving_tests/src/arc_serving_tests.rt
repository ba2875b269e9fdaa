// What no clause says: that calls succeed, and that callers go on beside each other.
ghost use Rattle.std.specs.Prelude.{◌≤◌, length};
ghost use Rattle.centre_core.specs.Setting.{IsSetting};

mod failing_disks;
mod links;
mod memory;
mod turns;

use crate::stores;
use arc_doors::{MemDoor, Pulse};
use arc_io::{Disk, MemDisk, Port};
use arc_serving::{Came, Crew, GatheredStore, ServedStore, Station, gather_store, serve_store};
use centre_store::Store;
use disk_journal::SHIPPED;
use group_gate::GroupClosed;
use std::alloc::Global;
use std::process::Abort;
use std::sync::Wait;
use std::thread::Threads;

const SETUP: &[u8] = b"account 1234\noperator ann 1234\noperator bob 5678\n";

const BEAT: &[u8] = b"\n1EF20013\"NULL\"0000L0#1234[]\r";

// A store in memory on which a run has begun.
fn begun(rt: &impl Abort, alloc: Global) -> Store<MemDisk>
    ensures { IsSetting result.state.sum.text }
{
    let disk = MemDisk::new(alloc, Vec::new(alloc));
    stores::begun(rt, alloc, disk, SHIPPED, SETUP)
}

// What serving came to, for a store on which a run has begun: how many entries it has, and what else was given back.
fn served<P: Port + Send + Drop, T: Pulse + Send + Drop, R: Abort + Threads + Wait + Sync>(
    rt: &R,
    alloc: Global,
    station: Station<MemDoor<P>, MemDoor<P>, T>,
    crew: Crew,
) -> (u64, Station<MemDoor<P>, MemDoor<P>, T>, Came)
    requires lines { crew.lines ≤ length station.lines }
    requires desks { crew.desks ≤ length station.desks }
{
    let store = begun(rt, alloc);
    let ServedStore {
        store,
        station,
        came,
    } = serve_in_memory(rt, alloc, store, station, crew);
    let entries = store.centre().entries();
    // Given to `drop`, since its parts needn't be looked at here.
    drop(store);
    (entries, station, came.expect(rt, "memory"))
}

// Serves doors in memory. That they may go to a thread is found for ports of any type, and not for each.
fn serve_in_memory<
    P: Port + Send + Drop,
    T: Pulse + Send + Drop,
    D: Disk + Send + Drop,
    R: Threads + Wait + Sync,
>(
    rt: &R,
    alloc: Global,
    store: Store<D>,
    station: Station<MemDoor<P>, MemDoor<P>, T>,
    crew: Crew,
) -> ServedStore<D, MemDoor<P>, MemDoor<P>, T>
    requires begun { IsSetting store.state.sum.text }
    requires lines { crew.lines ≤ length station.lines }
    requires desks { crew.desks ≤ length station.desks }
{
    serve_store(rt, alloc, store, station, crew)
}

// The same at a gate with groups, which is whole at the end.
fn gathered<P: Port + Send + Drop, T: Pulse + Send + Drop, R: Abort + Threads + Wait + Sync>(
    rt: &R,
    alloc: Global,
    station: Station<MemDoor<P>, MemDoor<P>, T>,
    crew: Crew,
) -> (u64, Station<MemDoor<P>, MemDoor<P>, T>, Came)
    requires lines { crew.lines ≤ length station.lines }
    requires desks { crew.desks ≤ length station.desks }
{
    let store = begun(rt, alloc);
    let GatheredStore {
        closed,
        station,
        came,
    } = gather_in_memory(rt, alloc, store, station, crew);
    let entries = entries_of(rt, closed);
    (entries, station, came.expect(rt, "memory"))
}

fn entries_of(rt: &impl Abort, closed: GroupClosed<MemDisk>) -> u64 {
    match closed {
        GroupClosed::Whole(store) => {
            let entries = store.centre().entries();
            // Given to `drop`, since its parts needn't be looked at here.
            drop(store);
            entries
        }
        GroupClosed::Broken { .. } => panic!(rt; "not whole"),
    }
}

fn gather_in_memory<
    P: Port + Send + Drop,
    T: Pulse + Send + Drop,
    D: Disk + Send + Drop,
    R: Threads + Wait + Sync,
>(
    rt: &R,
    alloc: Global,
    store: Store<D>,
    station: Station<MemDoor<P>, MemDoor<P>, T>,
    crew: Crew,
) -> GatheredStore<D, MemDoor<P>, MemDoor<P>, T>
    requires begun { IsSetting store.state.sum.text }
    requires lines { crew.lines ≤ length station.lines }
    requires desks { crew.desks ≤ length station.desks }
{
    gather_store(rt, alloc, store, station, crew)
}
