// Opening hours as rows of tests have them.
use crate::checks::{cut, found, holds, number, same, same_found};
use open_schedules::Week;
use std::process::Abort;

/// The last second of the year 9999.
pub(crate) const LAST: u64 = 253_402_300_799;

/// Adds windows to a week, each as `WEEKDAY/FROM-TO`.
pub(crate) fn add_windows(rt: &impl Abort, week: &mut Week, windows: &str) {
    for window in windows.split_whitespace() {
        add(rt, week, window);
    }
}

fn add(rt: &impl Abort, week: &mut Week, window: &str) {
    let (weekday, minutes) = cut(rt, window, '/');
    let (from, to) = cut(rt, minutes, '-');
    let weekday: u8 = weekday.parse().expect(rt, "a weekday");
    let from: u16 = from.parse().expect(rt, "a minute");
    let to: u16 = to.parse().expect(rt, "a minute");
    assert!(rt; weekday <= 6 && from < to && to <= 1440);
    holds(rt, week.add(weekday, from, to), window);
}

/// A row has a moment, whether it lies in the hours of a week, and the next close.
pub(crate) fn compare_hours(rt: &impl Abort, week: &Week, row: &str) {
    let (moment, want) = cut(rt, row, ' ');
    let (within, close) = cut(rt, want, ' ');
    let moment = number(rt, moment);
    assert!(rt; moment <= LAST);
    let told = u64::from(week.in_hours(moment));
    same(rt, told, number(rt, within), row);
    same_found(rt, week.next_close(moment), found(rt, close), row);
}
