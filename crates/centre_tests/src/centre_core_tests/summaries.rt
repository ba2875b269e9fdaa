// Summaries of centres as bytes, worked out by hand, and copies of centres. A row of bytes has hexadecimal digits, with spaces between. The
// messages came by the line `line`, whose name is 6c696e65.
use super::{compare_entries, play_row};
use crate::same::same;
use centre_core::Centre;
use std::alloc::Global;
use std::process::Abort;

const NOTHING: &str = "\
0b 0000000000000001 0000000000000000 0000000000000000 0000000000000000 00 00
00000000
00000000";

// One account, whose message opened an incident.
const ONE: &str = "\
0;adopt one;adopted
0;start;started
0;message;taken";

pub(crate) const ONE_BYTES: &str = "\
0b 0000000000000001 000000003b9aca00 0000000000000003 0000000000000001
01 000000003b9aca00
01 0000000d 6163636f756e7420313233340a
00000001
04 31323334 01 000000003b9aca00 00 00 01
000000003b9aca00 00 01 30 0001 02 000b 3131333120303120303031
00000001
0000000000000001 04 31323334 05 03 313331 04 6c696e65 000000003b9aca00 0000000000000001 00 00 01 0a 00";

// Of two accounts the second is named first, is silent, and has an incident that is held; the first is open.
const TWO: &str = "\
0;adopt two;adopted
0;start;started
0;message other;taken
5;message;taken
10;beat;heard
20;claim;claimed
25;note;recorded
30;opening;taken
61;tick;raised 1";

pub(crate) const TWO_BYTES: &str = "\
0b 0000000000000009 000000003b9aca3d 0000000000000009 0000000000000003
01 000000003b9aca00
01 00000034 6163636f756e74203939393920626561742036300a6163636f756e7420313233340a6f70657261746f7220616e6e20313233340a
00000002
04 31323334 01 000000003b9aca1e 00 01 000000003b9aca1e 00 02
000000003b9aca05 00 01 30 0001 02 000b 3131333120303120303031
000000003b9aca1e 00 01 30 0002 02 000b 3134303120303020303031
04 39393939 01 000000003b9aca00 01 00 01
000000003b9aca00 00 01 30 0001 02 000b 3131333120303120303031
00000003
0000000000000001 04 39393939 05 03 313331 04 6c696e65 000000003b9aca00 0000000000000001 00 03 616e6e 000000003b9aca19
01 0a 01 0a 03 000000003b9aca19 03 616e6e
0000000000000002 04 31323334 05 03 313331 04 6c696e65 000000003b9aca05 0000000000000001 00 00 01 0a 00
0000000000000003 04 39393939 08 01 2d 00 000000003b9aca3d 0000000000000001 00 00 01 0a 00";

fn play(rt: &impl Abort, alloc: Global, centre: &mut Centre, rows: &str) {
    for row in rows.lines() {
        play_row(rt, alloc, centre, row);
    }
}

// The digits of bytes, two of each.
pub(super) fn digits_of(rt: &impl Abort, alloc: Global, bytes: &[u8]) -> String {
    let mut digits = String::new(alloc);
    for byte in bytes {
        let pair = format!(in alloc; "{byte:02x}").expect(rt, "memory");
        digits.push_str(&pair).expect(rt, "memory");
    }
    digits
}

// The digits of rows, without what stands between.
pub(crate) fn joined(rt: &impl Abort, alloc: Global, rows: &str) -> String {
    let mut digits = String::new(alloc);
    for word in rows.split_whitespace() {
        digits.push_str(word).expect(rt, "memory");
    }
    digits
}

fn compare_summary(rt: &impl Abort, alloc: Global, centre: &Centre, generation: u64, rows: &str) {
    let mut bytes = Vec::new(alloc);
    bytes.push(7).expect(rt, "memory");
    let written = centre.summary(alloc, generation, &mut bytes);
    same(rt, written, Ok(()), "memory");
    let got = digits_of(rt, alloc, &bytes);
    let want = joined(rt, alloc, rows);
    same(rt, got.as_str(), want.as_str(), "bytes");
}

#[test]
fn summaries_and_their_bytes(rt: HostRuntime) {
    let mut centre = Centre::empty(rt.alloc());
    compare_summary(&rt, rt.alloc(), &centre, 1, NOTHING);
    play(&rt, rt.alloc(), &mut centre, ONE);
    compare_summary(&rt, rt.alloc(), &centre, 1, ONE_BYTES);
    drop(centre);
}

#[test]
fn rows_stand_in_the_order_of_their_accounts(rt: HostRuntime) {
    let mut centre = Centre::empty(rt.alloc());
    play(&rt, rt.alloc(), &mut centre, TWO);
    compare_summary(&rt, rt.alloc(), &centre, 9, TWO_BYTES);
    drop(centre);
}

// A copy keeps what was kept, whatever its original is told then.
#[test]
fn a_copy_stays_as_it_was(rt: HostRuntime) {
    let mut centre = Centre::empty(rt.alloc());
    play(&rt, rt.alloc(), &mut centre, ONE);
    let copy = centre.copy(rt.alloc()).expect(&rt, "memory");
    play(&rt, rt.alloc(), &mut centre, "9;start;started");
    compare_entries(&rt, &centre, (4, 4));
    compare_entries(&rt, &copy, (3, 3));
    compare_summary(&rt, rt.alloc(), &copy, 1, ONE_BYTES);
    drop(centre);
    drop(copy);
}

// A copy answers as its original does.
#[test]
fn a_copy_goes_on_alike(rt: HostRuntime) {
    let mut centre = Centre::empty(rt.alloc());
    play(&rt, rt.alloc(), &mut centre, TWO);
    let mut copy = centre.copy(rt.alloc()).expect(&rt, "memory");
    drop(centre);
    play(&rt, rt.alloc(), &mut copy, GOES_ON);
    drop(copy);
}

// The repeat, the hold, the setup's interval and the numbers are known to it.
const GOES_ON: &str = "\
62;message;repeat
62;message other;repeat
63;next;busy
64;close;closed
65;beat;heard
126;tick;raised 0";
