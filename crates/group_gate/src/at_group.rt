// A gate with groups as a hall of one caller.
ghost use Rattle.std.specs.Prelude.{◌≡◌};

use crate::gate::{GroupGate, GroupPass};
use arc_data::Event;
use arc_io::Disk;
use centre_core::{Batch, Done, GroupHall, Grouped, Hall, Setup, Stop};
use line_gate::GateName;
use std::alloc::Global;
use std::sync::Wait;

/// A caller at a gate with groups. It holds no lock between two calls.
#[derive(Drop)]
pub struct AtGroup<'a, R: Wait, D: Disk, N: GateName> {
    pub rt: &'a R,
    pub gate: &'a GroupGate<D, N>,
    pub pass: GroupPass<N>,
}

impl<'a, R: Wait, D: Disk, N: GateName> Hall for AtGroup<'a, R, D, N> {
    ghost use Rattle.line_gate.specs.AtGates.{gate_seen, at_legal, at_in_force};

    ghost seen = { λ a. gate_seen N.terms a.pass };

    ghost legal = { λ a b h w. at_legal N.terms a.pass b h w };

    ghost in_force = { λ a b h w. at_in_force N.terms a.pass b h w };

    /// Submits an event under the pass's number, as `GroupGate::submit` does.
    fn submit(&mut self, alloc: Global, event: Event, clock: u64) -> Result<Done, Stop> {
        self.gate
            .submit(self.rt, alloc, &mut self.pass, event, clock)
    }

    /// The setup in force.
    fn setup(&self) -> &Setup {
        self.gate.setup()
    }
}

impl<'a, R: Wait, D: Disk, N: GateName> GroupHall for AtGroup<'a, R, D, N> {
    ghost untold = { λ a b h event clock. tt };

    /// Submits events under the pass's number, as `GroupGate::submit_all` does.
    fn submit_all(&mut self, alloc: Global, batch: &mut Batch) -> Grouped {
        self.gate.submit_all(self.rt, alloc, &mut self.pass, batch)
    }
}

impl<'a, R: Wait, D: Disk, N: GateName> AtGroup<'a, R, D, N> {
    /// Gives the pass back.
    pub fn leave(self) -> GroupPass<N>
        ensures { result ≡ self.entry.pass }
    {
        let AtGroup {
            rt: _,
            gate: _,
            pass,
        } = self;
        pass
    }
}
