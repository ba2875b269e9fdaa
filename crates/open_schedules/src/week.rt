// The opening hours of a week in a zone, in a fixed field.
ghost use Rattle.std.specs.Prelude.{◌≡◌, ◌↔◌, ◌+◌, ◌*◌, ◌<◌, ◌≤◌, ℕ, [], ◌∷◌, ◌++◌, length, nat_lt, if◌then◌else◌};
ghost use Rattle.std.specs.Prelude.{IsTrue, IfSome, IfNone, false};
ghost use Rattle.arc_data.specs.Moments.{IsMoment};
ghost use Rattle.alarm_rules.specs.Weeks.{in_hours, is_closing, next_close, IsNextClose};
ghost use Rattle.civil_time.specs.ZonedMinutes.{StaysAhead};
ghost use Rattle.open_schedules.specs.Minutes.{IsFirstUpTo, NoneUpTo, NoneBefore};

use crate::clock::week_minute;
use crate::closing::{is_open_at, next_close_of};
use arc_data::Window;
use civil_time::{Zone, stays_until};
use std::marker::Model;

/// The opening hours of a week, at most 28 windows, by the local time of a zone. Contracts see the zone and the list of windows.
#[derive(Drop)]
pub struct Week {
    zone: Zone,
    windows: [Window; 28],
    len: usize,
}

impl Model for Week {
    ghost use Rattle.alarm_rules.specs.Weeks.{Week as Hours};

    ghost Value = { Hours };

    ghost use Rattle.std.specs.Prelude.{take};
    ghost use Rattle.open_schedules.specs.Kept.{IsKept};

    ghost view = { λ w. record { zone = w.zone; windows = take w.len w.windows } };

    ghost invariant = { λ w. IsKept w.len w.windows };
}

impl Week {
    /// No windows, by the local time of a zone.
    pub fn new(zone: Zone) -> Week
        ensures { result ≡ record { zone = zone; windows = [] } }
    {
        let unused = Window {
            weekday: 0,
            from: 0,
            to: 1440,
        };
        Week {
            zone,
            windows: [unused; 28],
            len: 0,
        }
    }

    /// Puts a window last. False exactly where 28 are there, and then nothing changes. Weekday 0 is Monday; `from` and `to` are
    /// minutes of the local day, and the minute `to` is no part of the window.
    pub fn add(&mut self, weekday: u8, from: u16, to: u16) -> bool
        requires weekday { weekday ≤ 6 }
        requires order { from < to }
        requires end { to ≤ 1440 }
        ensures room { IsTrue result ↔ (length self.old.windows < 28) }
        ensures added { self.new ≡ (if result
            then record self.old { windows = self.old.windows ++ record { weekday = weekday; from = from; to = to } ∷ [] }
            else self.old) }
    {
        if self.len == 28 {
            return false;
        }
        self.windows[self.len] = Window { weekday, from, to };
        self.len += 1;
        true
    }

    /// The zone by whose local time the windows are.
    pub fn zone(&self) -> &Zone
        ensures { result.now ≡ self.now.zone }
    {
        &self.zone
    }

    /// The windows, in the order in which they were added.
    pub fn windows(&self) -> &[Window]
        ensures value { result.now ≡ self.now.windows }
        ensures size { length result.now ≤ 28 }
    {
        &self.windows[..self.len]
    }

    /// Whether there is a window. Without one no moment is in hours, and none is a closing moment.
    pub fn has_windows(&self) -> bool
        ensures { result ≡ nat_lt 0 (length self.now.windows) }
    {
        self.len > 0
    }

    /// A copy. Takes no memory.
    pub fn copy(&self) -> Week
        ensures { result ≡ self.now }
    {
        Week {
            zone: self.zone.copy(),
            windows: self.windows,
            len: self.len,
        }
    }

    /// Whether a moment before the year 10000 lies in a window.
    pub fn in_hours(&self, moment: u64) -> bool
        requires { IsMoment moment }
        ensures { result ≡ in_hours self.now moment }
    {
        self.is_open(moment / 60)
    }

    /// The first closing moment after a moment before the year 10000, at most 60 days later: one that is not in hours while
    /// the second before it is. `None` exactly where there is none.
    pub fn next_close(&self, after: u64) -> Option<u64>
        requires { IsMoment after }
        ensures value { result ≡ next_close self.now after }
        ensures some { IfSome result (IsNextClose self.now after) }
        ensures none { IfNone result ((t : ℕ) → after < t → t ≤ after + 5_184_000 → is_closing self.now t ≡ false) }
    {
        let last = after / 60 + 86_400;
        let mut minute = after / 60;
        while minute < last {
            let change = stays_until(&self.zone, minute).min(last);
            if let Some(close) = self.close_up_to(minute, change) {
                return Some(close * 60);
            }
            minute = change;
        }
        None
    }

    // Whether a window holds the minute since 1970.
    fn is_open(&self, minute: u64) -> bool
        requires { minute < 4_223_500_000 }
        ensures { result ≡ in_hours self.now (minute * 60) }
    {
        let ahead = self.zone.minutes_ahead(minute);
        is_open_at(self.windows(), week_minute(ahead, minute))
    }

    // Whether the hours close as the minute since 1970 begins.
    fn closes(&self, minute: u64) -> bool
        requires later { 0 < minute }
        requires minute { minute < 4_223_500_000 }
        ensures { result ≡ is_closing self.now (minute * 60) }
    {
        self.is_open(minute - 1) && !self.is_open(minute)
    }

    // The first minute after one and before another at which the hours close, where local time stays as far ahead of GMT.
    fn close_before(&self, minute: u64, change: u64) -> Option<u64>
        requires minute { minute < 4_223_500_000 }
        requires stays { StaysAhead self.now.zone minute change }
        ensures some { IfSome result (IsFirstUpTo (λ m. is_closing self.now (m * 60)) minute change) }
        ensures none { IfNone result (NoneBefore (λ m. is_closing self.now (m * 60)) minute change) }
    {
        let ahead = self.zone.minutes_ahead(minute);
        match next_close_of(ahead, self.windows(), minute) {
            Some(close) if close < change => Some(close),
            _ => None,
        }
    }

    // The first minute after one and up to another at which the hours close, where local time changes at the later one or
    // not at all.
    fn close_up_to(&self, minute: u64, change: u64) -> Option<u64>
        requires order { minute < change }
        requires end { change < 4_223_500_000 }
        requires stays { StaysAhead self.now.zone minute change }
        ensures some { IfSome result (IsFirstUpTo (λ m. is_closing self.now (m * 60)) minute change) }
        ensures none { IfNone result (NoneUpTo (λ m. is_closing self.now (m * 60)) minute change) }
    {
        match self.close_before(minute, change) {
            Some(close) => Some(close),
            None if self.closes(change) => Some(change),
            None => None,
        }
    }
}
