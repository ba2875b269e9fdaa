// What serving is given, and what it gives back.
use crate::ticking::Ticked;
use crate::working::Worked;
use arc_data::Memory;
use arc_doors::{Door, Pulse};
use arc_io::Disk;
use centre_store::Store;
use line_gate::GroupClosed;
use std::marker::Model;

/// What stands around a store: the doors of lines, the doors of desks, and the pulse that gives the moments at which to tick.
#[derive(Drop)]
pub struct Station<A: Door + Drop, B: Door + Drop, T: Pulse + Drop> {
    pub lines: Vec<A>,
    pub desks: Vec<B>,
    pub pulse: T,
}

impl<A: Door + Drop, B: Door + Drop, T: Pulse + Drop> Model for Station<A, B, T> {
    ghost use Rattle.std.specs.Prelude.{map};
    ghost use Rattle.arc_serving.specs.Seen.{StationSeen};

    ghost Value = { StationSeen };

    ghost view = { λ s. record { lines = map (λ d. A.seen d) s.lines.items; desks = map (λ d. B.seen d) s.desks.items; pulse = T.moments s.pulse } };
}

/// How many workers serve lines, how many serve desks, and how many sessions each of them serves at most.
#[derive(Clone, Copy, Debug, PartialEq, Eq)]
pub struct Crew {
    pub lines: usize,
    pub desks: usize,
    pub sessions: u32,
}

/// What came of each worker, in the order of the doors of its side, and of the ticker.
#[derive(Drop)]
pub struct Came {
    pub lines: Vec<Worked>,
    pub desks: Vec<Worked>,
    pub ticked: Ticked,
}

impl Model for Came {
    ghost use Rattle.arc_serving.specs.Seen.{CameSeen};

    ghost Value = { CameSeen };

    ghost view = { λ c. record { lines = c.lines.items; desks = c.desks.items; ticked = c.ticked } };
}

/// What came of closing the gate when all have ended, what stands around it, and what came of it all, or want of memory.
#[derive(Drop)]
pub struct GatheredStore<D: Disk + Drop, A: Door + Drop, B: Door + Drop, T: Pulse + Drop> {
    pub closed: GroupClosed<D>,
    pub station: Station<A, B, T>,
    pub came: Result<Came, Memory>,
}

/// The store when all have ended, what stands around it, and what came of it all, or want of memory.
#[derive(Drop)]
pub struct ServedStore<D: Disk + Drop, A: Door + Drop, B: Door + Drop, T: Pulse + Drop> {
    pub store: Store<D>,
    pub station: Station<A, B, T>,
    pub came: Result<Came, Memory>,
}
