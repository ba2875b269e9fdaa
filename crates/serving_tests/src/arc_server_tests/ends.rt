// Doors without links, which end at once or fail: what comes of their workers, and that the store has the beginning of the run alone.
ghost use Rattle.std.specs.Prelude.{◌≡◌, ◌≤◌, length, IfOk, OnOk};
ghost use Rattle.centre_core.specs.Setting.{IsSetting};

use super::SETUP;
use crate::same::same;
use arc_data::Memory;
use arc_doors::{ListPulse, MemDoor, Pulse};
use arc_io::{Disk, MemDisk, MemPort, Port};
use arc_serving::{Came, Crew, ServedStore, Station, Worked, WorkerEnd, serve_store};
use centre_core::Setup;
use centre_store::Store;
use disk_journal::SHIPPED;
use std::alloc::Global;
use std::process::Abort;
use std::sync::Wait;
use std::test::Fail;
use std::thread::Threads;

type Doors = MemDoor<MemPort>;

// A store in memory on which a run has begun.
fn begun(alloc: Global) -> Result<Store<MemDisk>, Fail>
    ensures { IfOk result (λ store. IsSetting store.state.sum.text) }
{
    let mut store = match Store::open(alloc, MemDisk::new(alloc, Vec::new(alloc)), SHIPPED) {
        Ok(store) => store,
        Err(refused) => {
            drop(refused);
            return Err("not opened")?;
        }
    };
    match begin(alloc, &mut store) {
        Ok(()) => Ok(store),
        Err(fail) => {
            drop(store);
            Err(fail)
        }
    }
}

fn begin(alloc: Global, store: &mut Store<MemDisk>) -> Result<(), Fail>
    ensures { OnOk result (IsSetting store.new.state.sum.text) }
{
    let setup = Setup::read(alloc, SETUP)?;
    store.begin(alloc, setup, 1_000_000_000)?;
    Ok(())
}

// Doors to no links, of one side: one whose calls of these numbers fail, or none.
fn doors_of(alloc: Global, failing: Option<&[u64]>) -> Result<Vec<Doors>, Fail> {
    let mut doors = Vec::new(alloc);
    if let Some(failing) = failing {
        match MemDoor::new(alloc, Vec::new(alloc), failing.to_vec(alloc)?) {
            Ok(door) => doors.push(door)?,
            Err(_) => return Err("no memory")?,
        }
    }
    Ok(doors)
}

// Serves doors in memory. That they may go to a thread is found for ports of any type, and not for each.
fn served<
    P: Port + Send + Drop,
    T: Pulse + Send + Drop,
    D: Disk + Send + Drop,
    R: Threads + Wait + Sync,
>(
    rt: &R,
    alloc: Global,
    store: Store<D>,
    station: Station<MemDoor<P>, MemDoor<P>, T>,
) -> (u64, Result<Came, Memory>)
    requires begun { IsSetting store.state.sum.text }
{
    let crew = Crew {
        lines: station.lines.len(),
        desks: station.desks.len(),
        sessions: 1,
    };
    let ServedStore {
        store,
        station,
        came,
    } = serve_store(rt, alloc, store, station, crew);
    drop(station);
    let recorded = store.centre().recorded();
    drop(store);
    (recorded, came)
}

// What comes of the workers of lines, and then of those of desks.
fn compare_ends<R: Abort + Threads + Wait + Sync>(
    rt: &R,
    alloc: Global,
    failing: (Option<&[u64]>, Option<&[u64]>),
    wanted: (&[Worked], &[Worked]),
) -> Result<(), Fail> {
    let (lines, desks) = failing;
    let lines = doors_of(alloc, lines)?;
    let desks = doors_of(alloc, desks)?;
    let store = begun(alloc)?;
    let station = Station {
        lines,
        desks,
        pulse: ListPulse::new(Vec::new(alloc)),
    };
    let (recorded, came) = served(rt, alloc, store, station);
    let Ok(came) = came else {
        return Err("no memory")?;
    };
    same(rt, came.lines.as_slice(), wanted.0, "workers of lines");
    same(rt, came.desks.as_slice(), wanted.1, "workers of desks");
    drop(came);
    same(rt, recorded, 2, "an Adopt and a Start");
    Ok(())
}

const ENDED: &[Worked] = &[Worked {
    end: WorkerEnd::DoorEnded,
    refused: 0,
}];

const FAILED: &[Worked] = &[Worked {
    end: WorkerEnd::DoorFault { before: 0, now: 1 },
    refused: 0,
}];

const SOUND: Option<&[u64]> = Some(&[]);

const FAILING: Option<&[u64]> = Some(&[1]);

#[test]
fn doors_that_end_at_once(rt: HostRuntime) -> Result<(), Fail> {
    compare_ends(&rt, rt.alloc(), (SOUND, None), (ENDED, &[]))?;
    compare_ends(&rt, rt.alloc(), (SOUND, SOUND), (ENDED, ENDED))
}

#[test]
fn doors_that_fail_at_once(rt: HostRuntime) -> Result<(), Fail> {
    compare_ends(&rt, rt.alloc(), (FAILING, None), (FAILED, &[]))?;
    compare_ends(&rt, rt.alloc(), (FAILING, FAILING), (FAILED, FAILED))?;
    compare_ends(&rt, rt.alloc(), (SOUND, FAILING), (ENDED, FAILED))
}
