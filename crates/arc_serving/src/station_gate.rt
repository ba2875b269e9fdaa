// The gates at which lines and desks are served.
ghost use Rattle.std.specs.Prelude.{◌≡◌, false};

use arc_io::Disk;
use group_gate::GroupGate;
use line_gate::{Gate, GateName};

/// A gate without groups.
#[derive(Drop)]
pub struct SingleGate<'a, D: Disk, N: GateName> {
    pub gate: &'a Gate<D, N>,
    ghost single: { N.terms.groups ≡ false },
}

/// A gate at which lines and desks are served: one that takes each event alone, or one that takes those of one piece of a line together.
#[derive(Drop)]
pub enum StationGate<'a, D: Disk, N: GateName> {
    Single(SingleGate<'a, D, N>),
    Group(&'a GroupGate<D, N>),
}

impl<'a, D: Disk, N: GateName> StationGate<'a, D, N> {
    /// The gate that has the lock.
    pub(crate) fn gate(&self) -> &Gate<D, N> {
        match self {
            StationGate::Single(single) => single.gate,
            StationGate::Group(group) => &group.gate,
        }
    }
}
