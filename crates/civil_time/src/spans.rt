// How long local time stays as far ahead of GMT as it is.
ghost use Rattle.std.specs.Prelude.{◌≡◌, ◌<◌, ◌≤◌, ◌*◌, ℕ, pos, ◌<ℤ◌, ◌≤ℤ◌};
ghost use Rattle.zone_rules.specs.Daylight.{year_at, year_end};
ghost use Rattle.zone_rules.specs.ZonedTime.{last_asked};
ghost use Rattle.civil_time.specs.ZonedMinutes.{StaysAhead};

use crate::zone::{LAST_ASKED, Zone, instant};
use jiff_core::{Timestamp, civil};

/// A minute later than another one, before which local time stays as far ahead of GMT as it is there: the one in which the
/// zone's clock changes, or in which the year begins, by which a rule tells its changes.
pub fn stays_until(zone: &Zone, minute: u64) -> u64
    requires { minute < 4_223_500_000 }
    ensures later { minute < result }
    ensures stays { StaysAhead zone.now minute result }
{
    if minute * 60 >= LAST_ASKED {
        return minute + 86_400;
    }
    next_change(zone, minute).max(minute + 1)
}

// The first minute after one at which a rule tells a change, or a year.
fn next_change(zone: &Zone, minute: u64) -> u64
    requires { minute * 60 < last_asked }
    ensures { StaysAhead zone.now minute result }
{
    let next_year = year_end_minute(minute);
    match zone.rule().next_transition(instant(minute)) {
        Some(change) => minute_from(change.timestamp).min(next_year),
        None => next_year,
    }
}

// The minute with which the year of this one ends.
fn year_end_minute(minute: u64) -> u64
    requires { minute * 60 < last_asked }
    ensures { pos (result * 60) ≡ year_end (year_at (minute * 60)) }
{
    let date = civil::Date::from_days_since_min((minute / 1440) as u32 + 4_371_587);
    let first = civil::Date::constrain(date.year, 1, 1).to_unix_epoch_day();
    let after = i64::from(first) + i64::from(civil::days_in_year(date.year));
    after as u64 * 1440
}

// The first minute that begins at an instant or after it.
fn minute_from(at: Timestamp) -> u64
    ensures reached { at.nanosecond ≤ℤ pos (result * 60_000_000_000) }
    ensures first { (u : ℕ) → u < result → pos (u * 60_000_000_000) <ℤ at.nanosecond }
{
    ((at.nanosecond.max(0) + 59_999_999_999) / 60_000_000_000) as u64
}
