// Weeks at offsets that stay: moments worked out by hand, weeks that were drawn, and the room for windows.
ghost use Rattle.jiff_core.specs.Calendar.{IsWithin};

use crate::checks::{cut, holds, same};
use crate::weeks::{add_windows, compare_hours};
use arc_data::Window;
use civil_time::{Zone, local};
use open_schedules::Week;
use std::process::Abort;

mod drawn;

#[test]
fn hours_and_closes(rt: HostRuntime) {
    compare(&rt, WEEKS);
    compare(&rt, drawn::DRAWN);
}

// Compares the hours at moments. A row `W` has the offset of a week and its windows, each as `WEEKDAY/FROM-TO`. A row `T` has a
// moment, whether it lies in the hours, and the next close of the last week above it. Any other row is a remark.
fn compare(rt: &impl Abort, rows: &str) {
    let mut week = Week::new(Zone::fixed(0));
    for row in rows.lines() {
        let (word, rest) = cut(rt, row, ' ');
        match word {
            "W" => week = week_of(rt, rest),
            "T" => compare_hours(rt, &week, rest),
            _ => {}
        }
    }
}

fn week_of(rt: &impl Abort, words: &str) -> Week {
    let (offset, windows) = words.split_once(' ').unwrap_or((words, ""));
    let mut week = Week::new(Zone::fixed(offset_of(rt, offset)));
    add_windows(rt, &mut week, windows);
    week
}

fn offset_of(rt: &impl Abort, word: &str) -> i16
    ensures { IsWithin 840 result }
{
    let offset: i16 = word.parse().expect(rt, "an offset");
    assert!(rt; offset >= -840 && offset <= 840);
    offset
}

// 1709510400 is the beginning of Monday, 4 March 2024, in GMT, and the last second of the year 9999 is a Friday.
const WEEKS: &str = "\
# An office closes each working day.
W 60 0/480-1080 1/480-1080 2/480-1080 3/480-1080 4/480-1080
T 1709510400 0 1709571600
T 1709571599 1 1709571600
T 1709571600 0 1709658000
T 1709917200 0 1710176400
W -300 0/480-1080 1/480-1080 2/480-1080 3/480-1080 4/480-1080
T 1709510400 0 1709593200
# Windows that meet close once.
W 0 5/1320-1440 6/0-360
T 1709510400 0 1710050400
W 0 0/480-720 0/600-900 0/900-960
T 1709510400 0 1709568000
W 0 6/1200-1440 0/0-120
T 1709510400 1 1709517600
T 1710100800 1 1710122400
# The greatest offsets shift by 14 hours.
W 840 6/600-1440
T 1709510400 0 1710064800
W -840 6/600-1440
T 1709510400 1 1709560800
# The first and the last moments have hours.
W -840 2/600-1440
T 0 1 50400
W 840 3/840-841
T 0 1 60
W 0 4/0-1
T 253402300799 0 253402819260
# Hours without an end never close.
W 0
T 1709510400 0 -
W 0 0/0-1440 1/0-1440 2/0-1440 3/0-1440 4/0-1440 5/0-1440 6/0-1440
T 1709510400 1 -
# 1000000000 is a Sunday, 01:46:40.
W 0 6/480-1080
T 1000000000 0 1000058400
T 1000026000 1 1000058400
T 1000058400 0 1000663200";

#[test]
fn a_week_tells_its_parts(rt: HostRuntime) {
    let none = week_of(&rt, "-840");
    holds(&rt, !none.has_windows(), "no windows");
    let week = week_of(&rt, "345 6/480-1080 0/0-1440").copy();
    holds(&rt, week.has_windows(), "its windows");
    // 1970 began at a quarter to six.
    same(
        &rt,
        u64::from(local(0, week.zone()).minute),
        345,
        "its zone",
    );
    let sunday = Window {
        weekday: 6,
        from: 480,
        to: 1080,
    };
    let monday = Window {
        weekday: 0,
        from: 0,
        to: 1440,
    };
    assert_eq!(&rt; week.windows(), [sunday, monday].as_slice());
}

#[test]
fn a_week_has_room_for_28_windows(rt: HostRuntime) {
    let mut week = Week::new(Zone::fixed(0));
    for minute in 0u16..28 {
        let added = week.add(0, 2 * minute, 2 * minute + 1);
        holds(&rt, added, "room");
    }
    holds(&rt, !week.add(1, 0, 1440), "no room");
    same(&rt, week.windows().len() as u64, 28, "the windows");
}
