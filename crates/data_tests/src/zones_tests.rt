// Zones by rules, local times and weeks in them: the changes of a year of twelve rules, texts that are no rules, and the ends of time.
use crate::checks::{cut, holds, integer, number, same};
use crate::weeks::{LAST, add_windows, compare_hours};
use civil_time::{Zone, local};
use open_schedules::Week;
use std::process::Abort;

mod changes;

#[test]
fn local_times_and_hours_over_the_changes_of_a_year(rt: HostRuntime) {
    compare(&rt, changes::CHANGES);
    compare(&rt, SEASONS);
    compare(&rt, ENDS);
}

// Compares local times and hours. A row `Z` has a rule. A row `L` has a moment, its weekday, its minute of the local day and its
// local day. A row `W` has windows, each as `WEEKDAY/FROM-TO`, and a row `T` a moment, whether it lies in them, and their next
// close. Any other row is a remark.
fn compare(rt: &impl Abort, rows: &str) {
    let mut zone = Zone::fixed(0);
    let mut week = Week::new(Zone::fixed(0));
    for row in rows.lines() {
        let (word, rest) = row.split_once(' ').unwrap_or((row, ""));
        match word {
            "Z" => zone = zone_of(rt, rest),
            "W" => week = week_of(rt, &zone, rest),
            "L" => compare_local(rt, &zone, rest),
            "T" => compare_hours(rt, &week, rest),
            _ => {}
        }
    }
}

fn zone_of(rt: &impl Abort, rule: &str) -> Zone {
    Zone::posix(rule.as_bytes()).expect(rt, "a rule")
}

fn week_of(rt: &impl Abort, zone: &Zone, words: &str) -> Week {
    let mut week = Week::new(zone.copy());
    add_windows(rt, &mut week, words);
    week
}

fn compare_local(rt: &impl Abort, zone: &Zone, row: &str) {
    let (moment, want) = cut(rt, row, ' ');
    let (weekday, want) = cut(rt, want, ' ');
    let (minute, day) = cut(rt, want, ' ');
    let moment = number(rt, moment);
    assert!(rt; moment <= LAST);
    let told = local(moment, zone);
    same(rt, u64::from(told.weekday), number(rt, weekday), row);
    same(rt, u64::from(told.minute), number(rt, minute), row);
    holds(rt, told.day == integer(rt, day), row);
}

// Sundays from eight to six in Berlin close at 16:00 GMT in September, and at 17:00 in January. 1000000000 is such a Sunday, 01:46:40
// GMT; 1010000000 is a Wednesday.
const SEASONS: &str = "\
Z CET-1CEST,M3.5.0,M10.5.0/3
W 6/480-1080
T 1000000000 0 1000051200
T 1010000000 0 1010336400";

// The last second of the year 9999 is a Friday. 2932896 days lie between 1 January 1970, which was a Thursday, and its day. Behind
// it goes on what holds a day before.
const ENDS: &str = "\
Z CET-1CEST,M3.5.0,M10.5.0/3
L 0 3 60 0
L 253402300799 5 59 2932897
W 5/0-60
T 253402300799 1 253402300800
W 4/0-1440 5/0-90
T 253402300799 1 253402302600
Z NZST-12NZDT,M9.5.0,M4.1.0/3
L 0 3 780 0
L 253402300799 5 779 2932897
Z EST5EDT,M3.2.0,M11.1.0
L 0 2 1140 -1
L 253402300799 4 1139 2932896
W 2/0-1200
T 0 1 3600
W
T 0 0 -
T 253402300799 0 -";

#[test]
fn texts_that_are_rules(rt: HostRuntime) {
    for text in RULES.lines() {
        holds(&rt, Zone::posix(text.as_bytes()).is_some(), text);
    }
}

// Names of letters and in brackets, signs, minutes and seconds, and each form of a day and its greatest numbers.
const RULES: &str = "\
UTC0
IST-5:30
<-03>+3
<+1245>-12:45<+1345>,M9.5.0/2:45,M4.1.0/3:45
ABCDEFGHIJKLMNO-24:59:59
AAA24:59:59BBB,J1/-167:59:59,365/167:59:59
EST5EDT,M3.2.0,M11.1.0
EST5EDT4,J1/0,J365/25
EST5EDT,0/0,J365/25
CET-1CEST-2,M12.5.6,M1.1.0/+3";

#[test]
fn texts_that_are_no_rules(rt: HostRuntime) {
    for text in REFUSED.lines() {
        holds(&rt, Zone::posix(text.as_bytes()).is_none(), text);
    }
    holds(&rt, Zone::posix(b"\xff\xfe\xfd1").is_none(), "no letters");
}

// No name, a short or a long one, no hours or too many, minutes and seconds over 59 or of one digit, no rule or half of one, days and
// hours that there are not, more behind a rule, and what names a file.
const REFUSED: &str = "\
!
CE-1
<+1>-1
ABCDEFGHIJKLMNOP-1
<+01-1
CET
CET-25
CET-1:60
CET-1:5
CET-1:00:60
CET-1CEST
CET-1CEST,M3.5.0
CET-1CEST,M3.5.0,
CET-1CEST,M0.5.0,M10.5.0
CET-1CEST,M13.5.0,M10.5.0
CET-1CEST,M3.0.0,M10.5.0
CET-1CEST,M3.6.0,M10.5.0
CET-1CEST,M3.5.7,M10.5.0
CET-1CEST,J0,J365
CET-1CEST,J1,J366
CET-1CEST,366,1
CET-1CEST,M3.5.0/168,M10.5.0
CET-1CEST,M3.5.0,M10.5.0/3,
CET-1CEST,M3.5.0,M10.5.0 
:Europe/Berlin
Europe/Berlin
-60";

#[test]
fn a_fixed_zone_has_its_offset(rt: HostRuntime) {
    compare_local(&rt, &Zone::fixed(345), "0 3 345 0");
    compare_local(&rt, &Zone::fixed(-840), "59 2 600 -1");
    compare_local(&rt, &Zone::fixed(840), "253402300799 5 839 2932897");
}
