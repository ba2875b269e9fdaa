// A gate as a hall of one caller.
ghost use Rattle.std.specs.Prelude.{◌≡◌, ◌∷◌, List, IfOk, IfErr, OnErr};

use crate::gate::Gate;
use crate::name::GateName;
use crate::pass::Pass;
use arc_data::Event;
use arc_io::Disk;
use centre_core::{Done, Hall, Setup, Stop};
use std::alloc::Global;
use std::sync::Wait;

/// A caller at a gate. It holds no lock between two calls.
#[derive(Drop)]
pub struct AtGate<'a, R: Wait, D: Disk, N: GateName> {
    pub rt: &'a R,
    pub gate: &'a Gate<D, N>,
    pub pass: Pass<N>,
}

impl<'a, R: Wait, D: Disk, N: GateName> Hall for AtGate<'a, R, D, N> {
    ghost use Rattle.line_gate.specs.AtGates.{gate_seen, at_legal, at_in_force};

    ghost seen = { λ a. gate_seen N.terms a.pass };

    ghost legal = { λ a b h w. at_legal N.terms a.pass b h w };

    ghost in_force = { λ a b h w. at_in_force N.terms a.pass b h w };

    /// Submits an event under the pass's number, as `Gate::submit` does.
    fn submit(&mut self, alloc: Global, event: Event, clock: u64) -> Result<Done, Stop> {
        self.gate
            .submit(self.rt, alloc, &mut self.pass, event, clock)
    }

    /// The setup in force.
    fn setup(&self) -> &Setup {
        self.gate.setup()
    }
}

impl<'a, R: Wait, D: Disk, N: GateName> AtGate<'a, R, D, N> {
    /// Gives the pass back.
    pub fn leave(self) -> Pass<N>
        ensures { result ≡ self.entry.pass }
    {
        let AtGate {
            rt: _,
            gate: _,
            pass,
        } = self;
        pass
    }
}
