// The first minute at which some windows close, where local time stays as far ahead of GMT as it is.
ghost use Rattle.std.specs.Prelude.{◌≡◌, ◌<◌, ◌⊎◌, ℕ, All, Contains, IfSome, IfNone, false};
ghost use Rattle.jiff_core.specs.Calendar.{IsWithin};
ghost use Rattle.alarm_rules.specs.Weeks.{holds};
ghost use Rattle.open_schedules.specs.Kept.{IsWindow};
ghost use Rattle.open_schedules.specs.Minutes.{open_at, end_of, closes_at, Reaches, IsFound, IsFirstClose, Settles};

use crate::clock::{WEEK, next_at};
use arc_data::Window;

/// Whether a window holds this minute of the week.
pub(crate) fn is_open_at(windows: &[Window], place: u64) -> bool
    ensures { result ≡ open_at windows.now place }
{
    let (weekday, minute) = (place / 1440, place % 1440);
    for window in windows {
        if holds(window, weekday, minute) {
            return true;
        }
    }
    false
}

/// The first minute after another one at which the windows close. `None` where there is none.
pub(crate) fn next_close_of(ahead: i64, windows: &[Window], after: u64) -> Option<u64>
    requires near { IsWithin 1560 ahead }
    requires valid { All IsWindow windows.now }
    requires after { after < 4_223_500_000 }
    ensures some { IfSome result (IsFirstClose ahead windows.now after) }
    ensures none { IfNone result ((u : ℕ) → after < u → closes_at windows.now ahead u ≡ false) }
{
    let mut next = None;
    for window in windows {
        next = earlier(next, close_of(ahead, windows, window, after));
    }
    next
}

// Whether a window holds this minute of this weekday.
fn holds(window: &Window, weekday: u64, minute: u64) -> bool
    ensures { result ≡ holds weekday minute window.now }
{
    u64::from(window.weekday) == weekday
        && u64::from(window.from) <= minute
        && minute < u64::from(window.to)
}

// The minute of the week that a window ends at.
fn end_of(window: &Window) -> u64
    ensures value { result ≡ end_of window.now }
    ensures small { result < 10_080 }
{
    (u64::from(window.weekday) * 1440 + u64::from(window.to)) % WEEK
}

// The first minute after another at which this window, one of these, ends and the hours with it. `None` where another window
// holds the minute that it ends at.
fn close_of(ahead: i64, windows: &[Window], window: &Window, after: u64) -> Option<u64>
    requires near { IsWithin 1560 ahead }
    requires valid { IsWindow window.now }
    requires among { Contains windows.now window.now }
    requires after { after < 4_223_500_000 }
    ensures found { IfSome result (IsFound ahead windows.now after) }
    ensures settles { Settles ahead windows.now after result window.now }
{
    let end = end_of(window);
    if is_open_at(windows, end) {
        None
    } else {
        Some(next_at(ahead, end, after))
    }
}

// The earlier of two minutes, of which each may be lacking.
fn earlier(a: Option<u64>, b: Option<u64>) -> Option<u64>
    ensures one { (result ≡ a) ⊎ (result ≡ b) }
    ensures first { (u : ℕ) → Reaches a u → Reaches result u }
    ensures second { (u : ℕ) → Reaches b u → Reaches result u }
{
    match (a, b) {
        (Some(x), Some(y)) => Some(if y < x { y } else { x }),
        (Some(x), None) => Some(x),
        (None, y) => y,
    }
}
