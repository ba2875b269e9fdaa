// What no clause says: that memory for some places is found, and answers worked out by hand.
ghost use Rattle.std.specs.Prelude.{◌≡◌, ◌<◌, ◌≤◌, ◌+◌, ℕ};
ghost use Rattle.supervision.specs.Deadlines.{TakesTwice};

use crate::places::{compare, place_at};
use crate::same::same;
use arc_text::Steps;
use std::alloc::Global;
use std::marker::Brand;
use std::process::Abort;
use std::sync::ledger::{Blank, Ledger};
use supervision::{Places, Watch, law_steps_are_twice_digits};

// Deadlines by place or `-`, a moment, and the places whose deadline is passed.
const ROWS: &str = "\
100 50 100;50;
100 50 100;51;1
100 50 100;100;1
100 50 100;101;0 1 2
9 8 7 6 5;8;2 3 4
5 9 5 9 5;6;0 2 4
7 7 7 7 7;8;0 1 2 3 4
7 7 7 7 7;7;
- - -;101;
- 7 - 100;101;1 3
- - - - 7;8;4
0;0;
0;1;0
18446744073709551615;18446744073709551615;
18446744073709551614 18446744073709551615;18446744073709551615;0";

// Gives one of five places a deadline.
fn set<L: Ledger>(
    rt: &impl Abort,
    watch: &mut Watch,
    place: usize,
    deadline: Option<u64>,
    steps: &mut Steps<L>,
) {
    watch.reserve(5).expect(rt, "memory");
    if place < 5 {
        watch.set(place, deadline, steps);
    }
}

fn set_all<L: Ledger>(rt: &impl Abort, watch: &mut Watch, deadlines: &str, steps: &mut Steps<L>) {
    for (place, word) in deadlines.split(' ').enumerate() {
        set(rt, watch, place, word.parse().ok(), steps);
    }
}

// The places whose deadline is passed at a moment.
fn compare_due<L: Ledger>(
    rt: &impl Abort,
    alloc: Global,
    watch: &Watch,
    (at, wanted): (u64, &str),
    steps: &mut Steps<L>,
    row: &str,
) {
    let mut places = Places::new(alloc);
    watch.due(at, &mut places, steps).expect(rt, "memory");
    compare(rt, &places, wanted, row);
}

fn play_row<L: Ledger>(rt: &impl Abort, alloc: Global, row: &str, steps: &mut Steps<L>) {
    let (deadlines, rest) = row.split_once(';').expect(rt, "a row");
    let (at, wanted) = rest.split_once(';').expect(rt, "a row");
    let at = at.parse().expect(rt, "a moment");
    let mut watch = Watch::new(alloc);
    set_all(rt, &mut watch, deadlines, steps);
    compare_due(rt, alloc, &watch, (at, wanted), steps, row);
}

fn play_rows<L: Ledger>(rt: &impl Abort, alloc: Global, steps: &mut Steps<L>) {
    for row in ROWS.lines() {
        play_row(rt, alloc, row, steps);
    }
}

// A place, the deadline that it gets or `-`, and the places that are then due at 101: deadlines that are taken away, set later, set back
// and set again.
const CHANGES: &str = "\
1;-;0 2
2;200;0
2;50;0 2
0;100;0 2
1;-;0 2
1;0;0 1 2";

// Changes a deadline. The list of places is always the same one, so what stood in it goes.
fn change<L: Ledger>(
    rt: &impl Abort,
    watch: &mut Watch,
    places: &mut Places,
    row: &str,
    steps: &mut Steps<L>,
) {
    let (place, rest) = row.split_once(';').expect(rt, "a row");
    let (deadline, wanted) = rest.split_once(';').expect(rt, "a row");
    let place = place.parse().expect(rt, "a place");
    set(rt, watch, place, deadline.parse().ok(), steps);
    watch.due(101, places, steps).expect(rt, "memory");
    compare(rt, places, wanted, row);
}

fn change_all<L: Ledger>(
    rt: &impl Abort,
    watch: &mut Watch,
    places: &mut Places,
    steps: &mut Steps<L>,
) {
    for row in CHANGES.lines() {
        change(rt, watch, places, row, steps);
    }
}

fn play_changes<L: Ledger>(rt: &impl Abort, alloc: Global, steps: &mut Steps<L>) {
    let mut places = Places::new(alloc);
    let mut watch = Watch::new(alloc);
    set_all(rt, &mut watch, "100 100 100", steps);
    change_all(rt, &mut watch, &mut places, steps);
}

// No place is due where none has room, or has room and no deadline.
fn play_none<L: Ledger>(rt: &impl Abort, alloc: Global, steps: &mut Steps<L>) {
    let mut watch = Watch::new(alloc);
    compare_due(rt, alloc, &watch, (u64::MAX, ""), steps, "no room");
    watch.reserve(0).expect(rt, "memory");
    compare_due(rt, alloc, &watch, (u64::MAX, ""), steps, "none");
}

// Gives two thousand places deadlines in an order of their own.
fn set_storm<L: Ledger>(rt: &impl Abort, watch: &mut Watch, steps: &mut Steps<L>) {
    for place in 0..2000usize {
        watch.reserve(2000).expect(rt, "memory");
        watch.set(place, Some(place as u64 * 377 % 2000), steps);
    }
}

// All are due at once, and told by place.
fn play_storm<L: Ledger>(rt: &impl Abort, alloc: Global, steps: &mut Steps<L>) {
    let mut places = Places::new(alloc);
    let mut watch = Watch::new(alloc);
    set_storm(rt, &mut watch, steps);
    watch.due(2000, &mut places, steps).expect(rt, "memory");
    same(rt, places.count(), 2000, "all are due");
    compare_storm(rt, &places);
}

fn compare_storm(rt: &impl Abort, places: &Places) {
    for place in 0..2000usize {
        same(rt, place_at(places, place), Some(place), "told by place");
    }
}

// The most comparisons of `set` among so many deadlines.
fn bounds_of_set()
    ensures none { (before now : ℕ) → TakesTwice 0 before now → now ≤ before }
    ensures one { (before now : ℕ) → TakesTwice 1 before now → now ≤ before + 2 }
    ensures two { (before now : ℕ) → TakesTwice 2 before now → now ≤ before + 4 }
    ensures three { (before now : ℕ) → TakesTwice 3 before now → now ≤ before + 4 }
    ensures four { (before now : ℕ) → TakesTwice 4 before now → now ≤ before + 6 }
    ensures thousand { (before now : ℕ) → TakesTwice 1000 before now → now ≤ before + 20 }
{
    law_steps_are_twice_digits();
}

fn play_all<L: Ledger>(rt: &impl Abort, alloc: Global, blank: Blank)
    requires name { blank.name ≡ L.name }
    requires parts { blank.parts ≡ L.parts }
    requires some { 0 < blank.parts }
{
    let mut steps = Steps::<L>::new(blank);
    play_rows(rt, alloc, &mut steps);
    play_changes(rt, alloc, &mut steps);
    play_none(rt, alloc, &mut steps);
    play_storm(rt, alloc, &mut steps);
}

#[test]
fn passed_deadlines(rt: HostRuntime) {
    bounds_of_set();
    play_all::<Brand>(&rt, rt.alloc(), Blank::new(1));
}
