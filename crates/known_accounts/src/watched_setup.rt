// A setup that is to come into force.
ghost use Rattle.std.specs.Prelude.{◌≡◌, IfOk};

use crate::deadlines::Deadlines;
use accounts::Setup;
use arc_data::Memory;
use std::alloc::Global;
use std::marker::Model;

/// A setup with memory for the deadlines of its accounts. Contracts see it as its text. It stands in a box, since what is worked out for an
/// event has room for one, and is handed on by value.
#[derive(Drop)]
pub struct WatchedSetup {
    pub(crate) parts: Box<WatchedParts>,
}

/// The setup, and the deadlines.
#[derive(Drop)]
pub(crate) struct WatchedParts {
    pub(crate) setup: Setup,
    pub(crate) deadlines: Deadlines,
}

impl Model for WatchedSetup {
    ghost use Rattle.std.specs.Prelude.{ℕ, List};
    ghost use Rattle.known_accounts.specs.Roomed.{IsRoomed};

    ghost Value = { List ℕ };

    ghost view = { λ w. w.parts.value.setup };

    ghost invariant = { λ w. IsRoomed w.parts.value.setup w.parts.value.deadlines };
}

impl WatchedSetup {
    /// Takes memory for the deadlines of a setup's accounts. The error is want of memory.
    pub fn of(alloc: Global, setup: Setup) -> Result<WatchedSetup, Memory>
        ensures { IfOk result (λ w. w ≡ setup) }
    {
        // Its clause says that the text is a setup.
        let _text = setup.text();
        let deadlines = Deadlines::with_places(alloc, setup.count())?;
        match Box::new(alloc, WatchedParts { setup, deadlines }) {
            Ok(parts) => Ok(WatchedSetup { parts }),
            Err(_) => Err(Memory),
        }
    }
}
