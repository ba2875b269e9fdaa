// What no clause says: that memory for some pairs is found, and answers worked out by hand.
ghost use Rattle.std.specs.Prelude.{◌≡◌, ◌<◌, ◌≤◌, ◌+◌, ℕ, length};
ghost use Rattle.arc_text.specs.Comparisons.{TakesFew};

use crate::same::{holds, same};
use arc_text::{Steps, law_steps_are_digits};
use operator_queue::Queue;
use std::alloc::Global;
use std::marker::Brand;
use std::process::Abort;
use std::sync::ledger::{Blank, Ledger};

// Pairs as they are put in, and as they come out.
const ROWS: &str = "\
;
7:5;7:5
2:1 1:4;1:4 2:1
2:3 1:4 2:1;1:4 2:1 2:3
3:1 2:10 2:9 1:20;1:20 2:9 2:10 3:1
2:5 1:5 2:5;1:5 2:5 2:5
255:0 0:18446744073709551615 0:0;0:0 0:18446744073709551615 255:0";

fn pair_of(rt: &impl Abort, word: &str) -> (u8, u64) {
    let (priority, number) = word.split_once(':').expect(rt, "a pair");
    let priority = priority.parse().expect(rt, "a priority");
    let number = number.parse().expect(rt, "a number");
    (priority, number)
}

fn put<L: Ledger>(rt: &impl Abort, queue: &mut Queue, pair: (u8, u64), steps: &mut Steps<L>) {
    queue.reserve(1).expect(rt, "memory");
    queue.insert(pair.0, pair.1, steps);
}

fn put_all<L: Ledger>(rt: &impl Abort, queue: &mut Queue, words: &str, steps: &mut Steps<L>) {
    for word in words.split_whitespace() {
        put(rt, queue, pair_of(rt, word), steps);
    }
}

// This pair comes out first.
fn take<L: Ledger>(rt: &impl Abort, queue: &mut Queue, pair: (u8, u64), steps: &mut Steps<L>) {
    same(rt, queue.first(), Some(pair), "the first");
    let taken = queue.remove(pair.0, pair.1, steps);
    holds(rt, taken, "it is there");
}

// The pairs come out in this order.
fn take_all<L: Ledger>(rt: &impl Abort, queue: &mut Queue, words: &str, steps: &mut Steps<L>) {
    for word in words.split_whitespace() {
        take(rt, queue, pair_of(rt, word), steps);
    }
    same(rt, queue.first(), None, words);
}

fn play_row<L: Ledger>(rt: &impl Abort, alloc: Global, row: &str, steps: &mut Steps<L>) {
    let (inwards, outwards) = row.split_once(';').expect(rt, "a row");
    let mut queue = Queue::new(alloc);
    put_all(rt, &mut queue, inwards, steps);
    take_all(rt, &mut queue, outwards, steps);
}

fn play_rows<L: Ledger>(rt: &impl Abort, alloc: Global, steps: &mut Steps<L>) {
    for row in ROWS.lines() {
        play_row(rt, alloc, row, steps);
    }
}

// The most comparisons of `insert` and of `remove` among so many pairs; `first` is passed no count, so it makes none.
fn bounds_of_a_search()
    ensures none { (before now : ℕ) → TakesFew 0 before now → now ≤ before }
    ensures one { (before now : ℕ) → TakesFew 1 before now → now ≤ before + 1 }
    ensures two { (before now : ℕ) → TakesFew 2 before now → now ≤ before + 2 }
    ensures three { (before now : ℕ) → TakesFew 3 before now → now ≤ before + 2 }
    ensures four { (before now : ℕ) → TakesFew 4 before now → now ≤ before + 3 }
    ensures thousand { (before now : ℕ) → TakesFew 1000 before now → now ≤ before + 10 }
{
    law_steps_are_digits();
}

// Puts a pair among three, with at most two comparisons.
fn put_among_three<L: Ledger>(queue: &mut Queue, steps: &mut Steps<L>)
    requires three { length queue.old.pairs ≡ 3 }
    requires room { 3 < queue.old.room }
    ensures { steps.new ≤ steps.old + 2 }
{
    bounds_of_a_search();
    queue.insert(2, 2, steps);
}

fn put_fourth<L: Ledger>(rt: &impl Abort, queue: &mut Queue, steps: &mut Steps<L>) {
    queue.reserve(1).expect(rt, "memory");
    assert!(rt; queue.count() == 3);
    put_among_three(queue, steps);
}

// What is not there stays out, and leaves the others.
fn play_lacking<L: Ledger>(rt: &impl Abort, alloc: Global, steps: &mut Steps<L>) {
    let mut queue = Queue::new(alloc);
    holds(rt, !queue.remove(2, 9, steps), "none is there");
    put_all(rt, &mut queue, "1:4 2:1 2:3", steps);
    same(rt, queue.first(), Some((1, 4)), "the first of three");
    put_fourth(rt, &mut queue, steps);
    holds(rt, !queue.remove(2, 9, steps), "another number");
    holds(rt, !queue.remove(1, 3, steps), "another priority");
    take_all(rt, &mut queue, "1:4 2:1 2:2 2:3", steps);
}

// A thousand pairs, put in by steps of 377, come out in order.
fn play_thousand<L: Ledger>(rt: &impl Abort, alloc: Global, steps: &mut Steps<L>) {
    let mut queue = Queue::new(alloc);
    put_thousand(rt, &mut queue, steps);
    take_thousand(rt, &mut queue, steps);
    same(rt, queue.first(), None, "all are out");
}

fn put_thousand<L: Ledger>(rt: &impl Abort, queue: &mut Queue, steps: &mut Steps<L>) {
    for i in 0..1000u64 {
        put(rt, queue, (1, i * 377 % 1000), steps);
    }
}

fn take_thousand<L: Ledger>(rt: &impl Abort, queue: &mut Queue, steps: &mut Steps<L>) {
    for number in 0..1000u64 {
        take(rt, queue, (1, number), steps);
    }
}

fn play_all<L: Ledger>(rt: &impl Abort, alloc: Global, blank: Blank)
    requires name { blank.name ≡ L.name }
    requires parts { blank.parts ≡ L.parts }
    requires some { 0 < blank.parts }
{
    let mut steps = Steps::<L>::new(blank);
    play_rows(rt, alloc, &mut steps);
    play_lacking(rt, alloc, &mut steps);
    play_thousand(rt, alloc, &mut steps);
}

#[test]
fn pairs_come_out_in_order(rt: HostRuntime) {
    bounds_of_a_search();
    play_all::<Brand>(&rt, rt.alloc(), Blank::new(1));
}
