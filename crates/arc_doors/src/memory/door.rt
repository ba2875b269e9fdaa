// A door in memory.
ghost use Rattle.std.specs.Prelude.{◌≡◌, ◌<◌, ◌≤◌, ◌+◌, All, false, length, vec_len, vec_capacity};

use crate::Door;
use arc_data::Memory;
use arc_io::{Failed, Port};
use std::alloc::Global;
use std::snapshot::Snapshot;
use std::sync::Wait;

/// A door in memory: it gives the ports of a list, one after the other, and then no more. The calls of `next` are numbered from 1,
/// those that fail included; a number stays at the last value of `u64`.
pub struct MemDoor<P: Port + Drop> {
    // The last one comes next.
    left: Vec<P>,
    // What the ports were when they were given, which clauses alone read.
    given: Vec<Snapshot<P>>,
    back: Vec<P>,
    failing: Vec<u64>,
    calls: u64,
    faults: u64,
    ghost ready: { All (λ port. (P.seen port).ended ≡ false) left.items },
    ghost room_to_give: { vec_len given + vec_len left ≤ vec_capacity given },
    ghost room_to_get: { vec_len given + vec_len left ≤ vec_capacity back },
    ghost within: { length back.items ≤ length given.items },
}

// Written out: one call wherever one is dropped, where a derived drop is spelled out at each exit.
impl<P: Port + Drop> Drop for MemDoor<P> {
    fn drop(self) {
        let MemDoor {
            left,
            given,
            back,
            failing,
            calls: _,
            faults: _,
        } = self;
        drop(left);
        drop(given);
        drop(back);
        drop(failing);
    }
}

impl<P: Port + Drop> MemDoor<P> {
    ghost use Rattle.std.specs.Prelude.{[], map, IfOk};
    ghost use Rattle.arc_doors.specs.Memory.{door_links, door_failing, door_calls, door_faults, door_back};

    /// A door to these ports, of which none has met the end of its input. Its calls of `next` of the numbers in `failing` fail, and
    /// no others do. The room to get each port back is taken here.
    pub fn new(alloc: Global, mut ports: Vec<P>, failing: Vec<u64>) -> Result<MemDoor<P>, Memory>
        requires { All (λ port. (P.seen port).ended ≡ false) ports.items }
        ensures links { IfOk result (λ door. door_links door
            ≡ record { left = map (λ port. P.seen port) ports.items; given = []; back = [] }) }
        ensures failing { IfOk result (λ door. door_failing door ≡ failing.items) }
        ensures calls { IfOk result (λ door. door_calls door ≡ 0) }
        ensures faults { IfOk result (λ door. door_faults door ≡ 0) }
    {
        let Ok(given) = Vec::with_capacity(alloc, ports.len()) else {
            return Err(Memory);
        };
        let Ok(back) = Vec::with_capacity(alloc, ports.len()) else {
            return Err(Memory);
        };
        ports.reverse();
        Ok(MemDoor {
            left: ports,
            given,
            back,
            failing,
            calls: 0,
            faults: 0,
        })
    }

    /// The ports that were got back, the first one first.
    pub fn into_back(self) -> Vec<P>
        ensures { result.items ≡ door_back self }
    {
        let MemDoor {
            left,
            given,
            back,
            failing,
            calls: _,
            faults: _,
        } = self;
        drop(left);
        drop(given);
        drop(failing);
        back
    }
}

impl<P: Port + Send + Drop> Door for MemDoor<P> {
    ghost use Rattle.std.specs.Prelude.{Result, Option};
    ghost use Rattle.arc_doors.specs.Doors.{Gives, HasOneOut, IsBackWithin, after_back};
    ghost use Rattle.arc_doors.specs.Memory.{door_seen, door_failing, door_calls, DoorCall};
    ghost use Rattle.arc_doors.specs.Within.{back_within};

    type Link = P;

    ghost seen = { door_seen };

    ghost within = { back_within };

    fn next<R: Wait>(&mut self, _rt: &R) -> Result<Option<P>, Failed>
        ensures told { Gives (λ port. P.seen port) (door_seen self.old) (door_seen self.new) result }
        ensures exact { DoorCall self.old self.new result }
    {
        self.calls = self.calls.saturating_add(1);
        if self.failing.contains(&self.calls) {
            self.faults = self.faults.saturating_add(1);
            return Err(Failed);
        }
        let link = self.left.pop();
        if let Some(link) = &link {
            self.given.push_reserved(Snapshot::of(link));
        }
        Ok(link)
    }

    fn back(&mut self, link: P)
        requires { HasOneOut (door_seen self.old).links }
        ensures told { door_seen self.new ≡ record (door_seen self.old) { links = after_back (P.seen link) (door_seen self.old).links } }
        ensures kept { (door_failing self.new ≡ door_failing self.old) × (door_calls self.new ≡ door_calls self.old) }
    {
        self.back.push_reserved(link);
    }

    fn faults(&self) -> u64 {
        self.faults
    }
}
