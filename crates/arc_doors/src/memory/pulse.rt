// A pulse that goes through a list.
ghost use Rattle.std.specs.Prelude.{◌≤◌, All, vec_len};
ghost use Rattle.arc_data.specs.Moments.{IsMoment};

use crate::Pulse;
use std::sync::Wait;
use std::sync::atomic::AtomicBool;

/// A pulse that gives the moments of a list, one after the other, and then ends. It does not look at the flag.
#[derive(Drop)]
pub struct ListPulse {
    moments: Vec<u64>,
    at: usize,
    ghost in_range: { All IsMoment moments.items },
    ghost within: { at ≤ vec_len moments },
}

impl ListPulse {
    ghost use Rattle.std.specs.Prelude.{◌≡◌, []};
    ghost use Rattle.arc_doors.specs.Memory.{pulse_moments};

    /// A pulse that gives these moments, in seconds since 1970.
    pub fn new(moments: Vec<u64>) -> Self
        requires { All IsMoment moments.items }
        ensures { pulse_moments result ≡ record { left = moments.items; given = [] } }
    {
        ListPulse { moments, at: 0 }
    }
}

impl Pulse for ListPulse {
    ghost use Rattle.std.specs.Prelude.{Some};
    ghost use Rattle.arc_doors.specs.Memory.{pulse_moments};

    ghost moments = { λ pulse. Some (pulse_moments pulse) };

    fn next<R: Wait>(&mut self, _rt: &R, _stop: &AtomicBool) -> Option<u64> {
        let moment = *self.moments.get(self.at)?;
        self.at += 1;
        Some(moment)
    }
}
