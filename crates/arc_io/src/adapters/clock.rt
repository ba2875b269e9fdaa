// The machine's clock.
ghost use Rattle.std.specs.Prelude.{◌≡◌, ◌≤◌, IfOk, OnErr};
ghost use Rattle.arc_data.specs.Moments.{IsMoment};
ghost use Rattle.arc_io.specs.Seconds.{seconds_of};

use crate::{Clock, Ends};
use std::time::Duration;
use std::{io, time};

/// The machine's clock, in seconds since 1970. Where it fails or is out of range, the last reading is
/// given again, at first 0.
#[derive(Drop)]
pub struct RealClock<R: time::Clock> {
    pub(super) rt: R,
    last: u64,
    ghost in_range: { IsMoment last },
}

impl<R: time::Clock> RealClock<R> {
    /// A clock over this runtime.
    pub fn new(rt: R) -> Self {
        RealClock { rt, last: 0 }
    }
}

impl<R: time::Clock> Ends for RealClock<R> {}

impl<R: time::Clock> Clock for RealClock<R> {
    fn now(&mut self) -> u64 {
        self.last = reading_after(self.rt.since_1970(), self.last);
        self.last
    }
}

// The seconds that the machine answered, where they are in range, and else the last reading.
fn reading_after(answer: io::Result<Duration>, last: u64) -> u64
    requires { IsMoment last }
    ensures bound { IsMoment result }
    ensures fresh { IfOk answer (λ since. IsMoment (seconds_of since) → result ≡ seconds_of since) }
    ensures late { IfOk answer (λ since. 253_402_300_800 ≤ seconds_of since → result ≡ last) }
    ensures failed { OnErr answer (result ≡ last) }
{
    match answer {
        Ok(since) if since.as_secs() < 253_402_300_800 => since.as_secs(),
        _ => last,
    }
}
