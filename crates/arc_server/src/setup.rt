// Reading the setup of a run.
ghost use Rattle.std.specs.Prelude.{◌≡◌, ◌≢◌, false, IsOk, IfOk, IfErr};
ghost use Rattle.alarm_rules.specs.Setups.{setup_of};
ghost use Rattle.arc_server.specs.SetupReads.{IsNoSetup, ReadsText};

use crate::status::{Status, Which};
use arc_data::SetupFault;
use arc_io::{ReadEnd, Source, read_all};
use centre_core::Setup;
use std::alloc::Global;

// How many bytes of a setup text are read at most: one more than a setup may have.
const SETUP_READ: usize = 4_194_305;

/// Reads the setup text, and what it means. An error is the status that it makes.
pub(crate) fn read_setup<S: Source>(alloc: Global, source: &mut S) -> Result<Setup, Status>
    requires { (S.seen source.old).ended ≡ false }
    ensures read { IfOk result (λ setup. ReadsText (S.seen source.old) (S.seen source.new) setup × IsOk (setup_of setup)) }
    ensures refused { IfErr result (λ status. IsNoSetup status (S.seen source.old) (S.seen source.new)) }
    ensures usage { IfErr result (λ status. status ≢ Status.Usage) }
{
    let before = source.read_faults();
    match read_all(alloc, source, SETUP_READ) {
        Err(ReadEnd::Memory) => Err(Status::Memory),
        Err(ReadEnd::Failed) => Err(Status::ReadFault {
            input: Which::Setup,
            before,
            now: source.read_faults(),
        }),
        Ok(text) => match Setup::read(alloc, &text) {
            Ok(setup) => Ok(setup),
            Err(SetupFault::Memory) => Err(Status::Memory),
            Err(fault) => Err(Status::SetupBad(fault)),
        },
    }
}
