// Stamps, freshness and local time, as `date` of another machine has them.
ghost use Rattle.arc_data.specs.Moments.{IsMoment};

use crate::checks::{cut, holds, integer, number, same_bytes, same_found};
use civil_time::{Zone, fresh, local, read_stamp, stamp_of};
use std::process::Abort;

mod months;

// The first second of the year 10000.
const END: u64 = 253_402_300_800;

fn moment_of(rt: &impl Abort, word: &str) -> u64
    ensures { IsMoment result }
{
    let moment = number(rt, word);
    assert!(rt; moment < END);
    moment
}

const STAMPS: &str = "\
999999999 _01:46:39,09-09-2001
1000000000 _01:46:40,09-09-2001
1000000040 _01:47:20,09-09-2001
1000000060 _01:47:40,09-09-2001
1000000061 _01:47:41,09-09-2001
951782400 _00:00:00,02-29-2000
1709164800 _00:00:00,02-29-2024
253402207201 _22:00:01,12-30-9999";

#[test]
fn stamps_are_those_of_the_machine(rt: HostRuntime) {
    for row in STAMPS.lines() {
        compare_stamp(&rt, row);
    }
    for row in months::MONTHS.lines() {
        compare_stamp(&rt, row);
    }
}

// A row is a moment and its stamp, which is read as that moment.
fn compare_stamp(rt: &impl Abort, row: &str) {
    let (moment, text) = cut(rt, row, ' ');
    let moment = moment_of(rt, moment);
    same_bytes(rt, &stamp_of(moment), text.as_bytes(), row);
    same_found(rt, read_stamp(text.as_bytes()), Some(moment), row);
}

// Texts that are no stamps: of another length; with another byte in place of each mark; with a blank in place of each first digit, or
// a byte beside the digits; past the clock and the calendar; and before 1970.
const OTHERS: &str = "\n\
_01:46:40,09-09-200
_01:46:40,09-09-20010
_01:46:40,09-09-2001 
 _01:46:40,09-09-2001
-01:46:40,09-09-2001
_01.46:40,09-09-2001
_01:46.40,09-09-2001
_01:46:40 09-09-2001
_01:46:40,09/09-2001
_01:46:40,09-09/2001
_ 1:46:40,09-09-2001
_01: 6:40,09-09-2001
_01:46: 0,09-09-2001
_01:46:40, 9-09-2001
_01:46:40,09- 9-2001
_01:46:40,09-09- 001
_01:46:4/,09-09-2001
_01:46:4:,09-09-2001
_0:46:40,009-09-2001
_24:00:00,09-09-2001
_01:60:00,09-09-2001
_01:46:60,09-09-2001
_01:46:40,13-09-2001
_01:46:40,00-09-2001
_01:46:40,09-00-2001
_01:46:40,09-31-2001
_01:46:40,10-32-2001
_00:00:00,02-30-2000
_00:00:00,02-29-2023
_00:00:00,02-30-2024
_00:00:00,02-29-2100
_23:59:59,12-31-1969
_00:00:00,01-01-0000";

#[test]
fn other_texts_are_no_stamps(rt: HostRuntime) {
    for text in OTHERS.lines() {
        same_found(&rt, read_stamp(text.as_bytes()), None, text);
    }
}

// A stamp, the time, and whether it is fresh.
const FRESHNESS: &str = "\
1000000000 1000000040 true
1000000000 1000000041 false
1000000020 1000000000 true
1000000021 1000000000 false
1000000000 1000000000 true
0 40 true
0 41 false
20 0 true
21 0 false
253402300759 253402300799 true
253402300758 253402300799 false
253402300799 253402300779 true
253402300799 253402300778 false";

#[test]
fn freshness_has_both_ends(rt: HostRuntime) {
    for row in FRESHNESS.lines() {
        compare_freshness(&rt, row);
    }
}

fn compare_freshness(rt: &impl Abort, row: &str) {
    let (stamp, rest) = cut(rt, row, ' ');
    let (now, want) = cut(rt, rest, ' ');
    let told = fresh(moment_of(rt, stamp), moment_of(rt, now));
    holds(rt, told == (want == "true"), row);
}

// A moment and an offset that stays, and the weekday, the minute and the day.
const LOCAL_TIMES: &str = "\
0 -840=2 600 -1
0 0=3 0 0
0 840=3 840 0
35999 -840=2 1199 -1
35999 0=3 599 0
35999 840=3 1439 0
36000 -840=2 1200 -1
36000 0=3 600 0
36000 840=4 0 1
50399 -840=2 1439 -1
50399 0=3 839 0
50399 840=4 239 1
50400 -840=3 0 0
50400 0=3 840 0
50400 840=4 240 1
86399 -840=3 599 0
86399 0=3 1439 0
86399 840=4 839 1
86400 -840=3 600 0
86400 0=4 0 1
86400 840=4 840 1
0 -1=2 1439 -1
59 -1=2 1439 -1
60 -1=3 0 0
0 1=3 1 0
60 -2=2 1439 -1
1000000000 -840=5 706 11573
1000000000 -107=5 1439 11573
1000000000 -106=6 0 11574
1000000000 0=6 106 11574
1000000000 840=6 946 11574
951782399 -840=0 599 11015
951782399 0=0 1439 11015
951782399 840=1 839 11016
951782400 -840=0 600 11015
951782400 0=1 0 11016
951782400 840=1 840 11016
4107542399 -840=6 599 47540
4107542399 0=6 1439 47540
4107542399 840=0 839 47541
4107542400 -840=6 600 47540
4107542400 0=0 0 47541
4107542400 840=0 840 47541
253402250399 -840=3 1199 2932895
253402250399 -1=4 598 2932896
253402250399 0=4 599 2932896
253402250399 1=4 600 2932896
253402250399 840=4 1439 2932896
253402300799 -840=4 599 2932896
253402300799 -1=4 1438 2932896
253402300799 0=4 1439 2932896
253402300799 1=5 0 2932897
253402300799 840=5 839 2932897";

#[test]
fn local_time_is_that_of_the_machine(rt: HostRuntime) {
    for row in LOCAL_TIMES.lines() {
        compare_local(&rt, row);
    }
}

fn compare_local(rt: &impl Abort, row: &str) {
    let (moment, rest) = cut(rt, row, ' ');
    let (offset, rest) = cut(rt, rest, '=');
    let (weekday, rest) = cut(rt, rest, ' ');
    let (minute, day) = cut(rt, rest, ' ');
    let moment = moment_of(rt, moment);
    let offset: i16 = offset.parse().expect(rt, "an offset");
    assert!(rt; offset >= -840 && offset <= 840);
    let time = local(moment, &Zone::fixed(offset));
    holds(rt, i64::from(time.weekday) == integer(rt, weekday), row);
    holds(rt, i64::from(time.minute) == integer(rt, minute), row);
    holds(rt, time.day == integer(rt, day), row);
}
