// Halls in memory.
ghost use Rattle.std.specs.Prelude.{IfSome};
ghost use Rattle.centre_rules.specs.Summary.{nothing};
ghost use Rattle.centre_core.specs.Runs.{begun};
ghost use Rattle.centre_core.specs.Setting.{IsSetFor};
ghost use Rattle.test_fixtures.specs.declared.moments.TheConstants.{BEGIN};

use crate::moments::BEGIN;
use centre_core::{RamHall, Setup};
use std::alloc::Global;

/// A hall in memory that begins with this setup. None where that is no setup, or memory is wanting.
pub fn ram_hall(alloc: Global, setup: &[u8]) -> Option<RamHall>
    ensures { IfSome result (λ hall. IsSetFor nothing hall (begun setup.now BEGIN)) }
{
    let Ok(setup) = Setup::read(alloc, setup) else {
        return None;
    };
    RamHall::new(alloc, setup, BEGIN).ok()
}
