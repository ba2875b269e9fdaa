// The message in flight.
ghost use Rattle.std.specs.Prelude.{◌≡◌, ◌+◌, nat_lt};
ghost use Rattle.arc_data.specs.Moments.{IsMoment};
ghost use Rattle.panel_core.specs.Sending.{repeated, repeats};

use panel_rules::Report;

// How long after its last copy a message is repeated, how long after its first copy it may be repeated, and how long after that it is
// given up, in seconds.
const REPEATED_AFTER: u64 = 20;

const REPEATED_WITHIN: u64 = 180;

const GIVEN_UP_AFTER: u64 = 240;

/// A message in flight: what it reports, its number, and when its first and its last copy were sent.
#[derive(Drop)]
pub struct Flight {
    pub report: Report,
    pub number: u16,
    pub first: u64,
    pub last: u64,
}

impl Flight {
    /// Whether a step at a moment gives it up.
    pub fn is_late(&self, now: u64) -> bool
        requires { IsMoment self.now.first }
        ensures { result ≡ nat_lt (self.now.first + 240) now }
    {
        now > self.first + GIVEN_UP_AFTER
    }

    /// Sends a further copy at a moment, where one may be sent. False where none may.
    pub fn repeat(&mut self, now: u64) -> bool
        requires first { IsMoment self.old.first }
        requires last { IsMoment self.old.last }
        ensures told { result ≡ repeats now self.old }
        ensures flight { self.new ≡ repeated now self.old }
    {
        let may = now >= self.last + REPEATED_AFTER && now <= self.first + REPEATED_WITHIN;
        if may {
            self.last = now;
        }
        may
    }
}
