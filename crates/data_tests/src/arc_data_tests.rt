// What no clause says of the plain data: that calls succeed, and examples worked out by hand.
use crate::checks::{cut, holds, same, same_bytes, short};
use arc_data::{
    Acted, Acts, Blob, Class, Listing, Outcome, PlanWord, Reply, Row, Step, StepList, Txt,
};
use std::alloc::Global;
use std::process::Abort;

// Whether bytes fit into a text, and the bytes.
const TEXTS: &str = "\
yes=
yes=1
yes=0123456789abcdef0123456789abcde
yes=0123456789abcdef0123456789abcdef
no=0123456789abcdef0123456789abcdef0";

#[test]
fn texts_of_at_most_32_bytes(rt: HostRuntime) {
    for row in TEXTS.lines() {
        compare_text(&rt, row);
    }
    same_bytes(&rt, Txt::empty().bytes(), b"", "the empty text");
    same_bytes(&rt, Txt::question().bytes(), b"?", "the question mark");
}

fn compare_text(rt: &impl Abort, row: &str) {
    let (fits, bytes) = cut(rt, row, '=');
    match Txt::of(bytes.as_bytes()) {
        Some(text) => {
            same_bytes(rt, text.bytes(), bytes.as_bytes(), row);
            holds(rt, fits == "yes", row);
        }
        None => holds(rt, fits == "no", row),
    }
}

#[test]
fn capitals_of_texts(rt: HostRuntime) {
    capitals(&rt, "", "");
    capitals(
        &rt,
        "abcdefghijklmnopqrstuvwxyz",
        "ABCDEFGHIJKLMNOPQRSTUVWXYZ",
    );
    capitals(&rt, "0a1B2-Cd", "0A1B2-CD");
    capitals(&rt, "@[`{ \u{e4}", "@[`{ \u{e4}");
}

fn capitals(rt: &impl Abort, bytes: &str, capitals: &str) {
    let (text, want) = (short(rt, bytes), short(rt, capitals));
    same_bytes(rt, text.capitals().bytes(), capitals.as_bytes(), bytes);
    holds(rt, (text == want) == (bytes == capitals), bytes);
}

#[test]
fn blobs(rt: HostRuntime) {
    same(&rt, Blob::new(rt.alloc()).count() as u64, 0, "a new blob");
    let bytes = b"one\ntwo\x00";
    let copy = Blob::of(rt.alloc(), bytes).expect(&rt, "memory");
    compare_blob(&rt, &copy, bytes);
    let owned = bytes.to_vec(rt.alloc()).expect(&rt, "memory");
    compare_blob(&rt, &Blob::of_vec(owned), bytes);
}

fn compare_blob(rt: &impl Abort, blob: &Blob, bytes: &[u8]) {
    same_bytes(rt, blob.bytes(), bytes, "its bytes");
    assert!(rt; blob.count() == 8);
    let some = [blob.at(0), blob.at(3), blob.at(7)];
    same_bytes(rt, &some, b"o\n\x00", "the first, the fourth and the last");
}

#[test]
fn ten_steps_and_ten_acts(rt: HostRuntime) {
    let mut steps = StepList::new();
    let mut acts = Acts::new();
    for number in 0..11u8 {
        let added = add_act(&mut steps, &mut acts, number);
        holds(&rt, added == (number < 10, number < 10), "the room");
    }
    holds(&rt, (steps.count(), acts.count()) == (10, 10), "the counts");
    let (steps, acts) = (steps.copy(), acts.copy());
    let (steps, acts) = (steps.items(), acts.items());
    assert!(&rt; steps.len() == 10 && acts.len() == 10);
    let (first, last) = (acts[0], acts[9]);
    holds(&rt, first.step == Step::Holder(0), "the first act");
    holds(&rt, last.step == Step::Holder(9), "the last act");
    holds(&rt, (first.at, last.at) == (0, 9), "the moments");
    holds(&rt, steps[9] == Step::Holder(9), "the last step");
}

// Whether there was room for a step and for an act.
fn add_act(steps: &mut StepList, acts: &mut Acts, number: u8) -> (bool, bool) {
    let step = Step::Holder(number);
    let acted = Acted {
        step,
        outcome: Outcome::Reached,
        at: u64::from(number),
        operator: Txt::question(),
    };
    (steps.push(step), acts.push(acted))
}

#[test]
fn sixteen_rows(rt: HostRuntime) {
    let alloc = rt.alloc();
    let listing = listing_of(&rt, alloc, 16);
    holds(
        &rt,
        (listing.total, listing.count()) == (17, 16),
        "the counts",
    );
    holds(&rt, last_row(&listing) == Some(row_of(15)), "the last row");
    let fewer = Reply::Listed(listing_of(&rt, alloc, 15));
    let others = Reply::Listed(listing_of(&rt, alloc, 0));
    holds(&rt, Reply::Listed(listing) != fewer, "other rows");
    holds(
        &rt,
        others == Reply::Listed(listing_of(&rt, alloc, 0)),
        "no rows",
    );
}

fn last_row(listing: &Listing) -> Option<Row> {
    let count = listing.count();
    if count == 0 {
        return None;
    }
    Some(listing.row(count - 1))
}

// A list of 17 incidents with so many rows, at most 16.
fn listing_of(rt: &impl Abort, alloc: Global, count: u64) -> Listing {
    let mut rows = Vec::new(alloc);
    for number in 0..count {
        rows.push(row_of(number)).expect(rt, "memory");
    }
    if rows.len() > 16 {
        return Listing::of(17, Vec::new(alloc));
    }
    Listing::of(17, rows)
}

fn row_of(number: u64) -> Row {
    Row {
        number,
        class: Class::Gas,
        account: Txt::question(),
        holder: None,
    }
}

#[test]
fn steps_and_words_told_apart(rt: HostRuntime) {
    holds(&rt, Step::Premises == Step::Premises, "premises");
    holds(&rt, Step::Holder(1) == Step::Holder(1), "one keyholder");
    holds(&rt, Step::Holder(1) != Step::Holder(4), "two keyholders");
    holds(&rt, Step::Note != Step::Holder(0), "a note and a keyholder");
    holds(&rt, PlanWord::Holders == PlanWord::Holders, "keyholders");
    holds(&rt, PlanWord::Guard != PlanWord::Note, "a guard and a note");
}
