// A store as the hall of one caller.
ghost use Rattle.std.specs.Prelude.{◌≡◌, Some};
ghost use Rattle.centre_core.specs.Setting.{IsSetting};

use crate::store::Store;
use arc_data::Event;
use arc_io::Disk;
use centre_core::{Done, Hall, Setup, Stop};
use std::alloc::Global;

impl<D: Disk> Hall for Store<D> {
    ghost use Rattle.centre_store.specs.StoreHalls.{store_seen, store_in_force};

    ghost seen = { store_seen D.seen };

    ghost legal = { λ s b h w. w.stands.centre.legal };

    ghost in_force = { store_in_force D.seen };

    /// Submits an event with the number 0, as `Store::submit` does. Conditions as there.
    fn submit(&mut self, alloc: Global, event: Event, clock: u64) -> Result<Done, Stop> {
        Store::submit(self, alloc, 0, event, clock)
    }

    /// The setup in force.
    fn setup(&self) -> &Setup
        requires { IsSetting self.now.state.sum.text }
        ensures { Some result.now ≡ self.now.state.sum.text }
    {
        match self.centre.setup() {
            Some(setup) => setup,
            None => unreachable!(),
        }
    }
}
