// What no clause says: that calls succeed, and answers worked out by hand.
use crate::made::{message, text};
use crate::same::same;
use repeat_window::{Message, Seen, Window};
use std::alloc::Global;
use std::process::Abort;

fn message_of(rt: &impl Abort, alloc: Global, seq: u16) -> Message {
    message(rt, alloc, text(rt, b"1234"), seq)
}

fn window(rt: &impl Abort, alloc: Global) -> Window {
    Window::new(alloc).expect(rt, "memory")
}

fn push(rt: &impl Abort, alloc: Global, window: &mut Window, seq: u16, at: u64) {
    let message = message_of(rt, alloc, seq);
    window.push(Seen { message, at });
}

fn push_all(rt: &impl Abort, alloc: Global, window: &mut Window, first: u16, last: u16, at: u64) {
    for seq in first..=last {
        push(rt, alloc, window, seq, at);
    }
}

// The moment of the message that one of this sequence repeats.
fn compare(
    rt: &impl Abort,
    alloc: Global,
    window: &Window,
    seq: u16,
    at: u64,
    want: Option<u64>,
    what: &str,
) {
    let found = window.holds(&message_of(rt, alloc, seq), at);
    same(rt, found, want, what);
}

#[test]
fn the_last_32_messages(rt: HostRuntime) {
    let alloc = rt.alloc();
    let mut window = window(&rt, alloc);
    push_all(&rt, alloc, &mut window, 1, 32, 1000);
    compare(&rt, alloc, &window, 1, 1300, Some(1000), "of 32");
    compare(&rt, alloc, &window, 1, 1301, None, "too late");
    push(&rt, alloc, &mut window, 33, 1000);
    compare(&rt, alloc, &window, 1, 1300, None, "of 33");
    push(&rt, alloc, &mut window, 5, 1001);
    compare(&rt, alloc, &window, 5, 1301, Some(1001), "pushed twice");
}

// Whether the first of so many messages, each of a sequence of its own, is still known.
fn compare_first(rt: &impl Abort, alloc: Global, count: u16, want: Option<u64>) {
    let mut window = window(rt, alloc);
    push_all(rt, alloc, &mut window, 1, count, 1000);
    compare(rt, alloc, &window, 1, 1000, want, "the first");
}

#[test]
fn windows_of_31_32_and_33_messages(rt: HostRuntime) {
    compare_first(&rt, rt.alloc(), 31, Some(1000));
    compare_first(&rt, rt.alloc(), 32, Some(1000));
    compare_first(&rt, rt.alloc(), 33, None);
}

// The window's oldest and its newest are equal: the newest is told, until 32 others came after it.
#[test]
fn equal_messages_at_both_ends(rt: HostRuntime) {
    let alloc = rt.alloc();
    let mut window = window(&rt, alloc);
    push(&rt, alloc, &mut window, 1, 1000);
    push_all(&rt, alloc, &mut window, 2, 31, 1001);
    push(&rt, alloc, &mut window, 1, 1002);
    compare(&rt, alloc, &window, 1, 1100, Some(1002), "both");
    push_all(&rt, alloc, &mut window, 32, 62, 1003);
    compare(&rt, alloc, &window, 1, 1100, Some(1002), "31 behind it");
    push(&rt, alloc, &mut window, 63, 1003);
    compare(&rt, alloc, &window, 1, 1100, None, "32 behind it");
}

// How many messages it keeps, and the sequences of its oldest and its newest; 0 where it keeps none.
fn compare_kept(rt: &impl Abort, window: &Window, want: (usize, u16, u16), what: &str) {
    let count = window.count();
    let ends = if count == 0 {
        (0, 0)
    } else {
        (window.at(0).message.seq, window.at(count - 1).message.seq)
    };
    same(rt, (count, ends.0, ends.1), want, what);
}

#[test]
fn the_oldest_stands_first(rt: HostRuntime) {
    let alloc = rt.alloc();
    let mut window = window(&rt, alloc);
    compare_kept(&rt, &window, (0, 0, 0), "of none");
    push(&rt, alloc, &mut window, 1, 1000);
    compare_kept(&rt, &window, (1, 1, 1), "of one");
    push_all(&rt, alloc, &mut window, 2, 32, 1000);
    compare_kept(&rt, &window, (32, 1, 32), "of 32");
    push(&rt, alloc, &mut window, 33, 1000);
    compare_kept(&rt, &window, (32, 2, 33), "of 33");
}
