// A clock that goes through a list.
ghost use Rattle.std.specs.Prelude.{◌≡◌, All, min, vec_len};
ghost use Rattle.arc_data.specs.Moments.{IsMoment};
ghost use Rattle.arc_io.specs.Lists.{reading_at};

use crate::count::Count;
use crate::{Clock, Ends};

/// A clock that gives the readings of a list, one after the other, then its last one again and again,
/// or 0 where the list is empty.
#[derive(Drop)]
pub struct ListClock {
    readings: Vec<u64>,
    at: usize,
    calls: Count,
    ghost in_range: { All IsMoment readings.items },
    ghost counted: { at ≡ min calls.number (vec_len readings) },
}

impl ListClock {
    ghost use Rattle.arc_io.specs.Memory.{clock_list, clock_calls};

    /// A clock that gives these readings, in seconds since 1970.
    pub fn new(readings: Vec<u64>) -> Self
        requires { All IsMoment readings.items }
        ensures list { clock_list result ≡ readings.items }
        ensures calls { clock_calls result ≡ 0 }
    {
        ListClock {
            readings,
            at: 0,
            calls: Count::new(),
        }
    }
}

impl Ends for ListClock {
    ghost use Rattle.arc_io.specs.Memory.{clock_seen};

    ghost seen = { clock_seen };
}

impl Clock for ListClock {
    ghost use Rattle.arc_io.specs.Told.{after_reading};
    ghost use Rattle.arc_io.specs.Memory.{clock_seen, ClockTick};

    fn now(&mut self) -> u64
        ensures bound { IsMoment result }
        ensures told { clock_seen self.new ≡ after_reading result (clock_seen self.old) }
        ensures exact { ClockTick self.old self.new result }
    {
        let reading = item_at(&self.readings, self.at);
        if self.at < self.readings.len() {
            self.at += 1;
        }
        self.calls = self.calls.and_one();
        reading
    }
}

// The list's item at the place, after its end its last one, or 0 where it is empty.
fn item_at(list: &[u64], at: usize) -> u64
    ensures { result ≡ reading_at list.now at }
{
    let place = at.min(list.len().saturating_sub(1));
    list.get(place).copied().unwrap_or(0)
}
