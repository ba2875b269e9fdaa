// What no clause says: that a centre's records come to a second one, byte for byte, and how each bad input ends either side. The bodies are
// those of the record format, by hand.
use crate::same::same;
use arc_io::{Area, MemDisk};
use centre_core::Setup;
use centre_store::Store;
use disk_journal::SHIPPED;
use mirror_centre::{FeedEnd, FollowEnd, Mirror, follow, serve_feed};
use std::alloc::Global;
use std::process::Abort;
use test_fixtures::messages::{account, burglary};
use test_fixtures::moments::BEGIN;
use test_fixtures::ports::failing_port;
use test_fixtures::stores::opened;

const SETUP: &[u8] = b"account 1234\n";

// The four answers of a centre that has an Adopt, a Start and a message; 39, 22, 51 bytes and one.
const ANSWERS: &[u8] =
    b"R\0\0\0\0\0\0\0\x01\0\0\0\x1a\x01\0\0\0\0\x3b\x9a\xca\0\0\0\0\x0daccount 1234\nR\0\0\0\0\0\0\0\x02\0\0\0\x09\x02\0\0\0\0\x3b\x9a\xca\0R\0\0\0\0\0\0\0\x03\0\0\0\x26\x03\0\0\0\0\x3b\x9a\xca\0\x041234\0\x010\0\x01\x02\0\x0b1131 01 001\x04lineE";

// The asks for the entries behind 0 to 3.
const ASKS: &[u8] = b"G\0\0\0\0\0\0\0\0G\0\0\0\0\0\0\0\x01G\0\0\0\0\0\0\0\x02G\0\0\0\0\0\0\0\x03";

// A store over a disk in memory that has nothing.
fn empty(rt: &impl Abort, alloc: Global) -> Store<MemDisk> {
    let disk = MemDisk::new(alloc, Vec::new(alloc));
    opened(alloc, disk, SHIPPED).expect(rt, "a store")
}

// The centre that is followed.
fn primary(rt: &impl Abort, alloc: Global) -> Store<MemDisk> {
    let mut store = empty(rt, alloc);
    let setup = Setup::read(alloc, SETUP).expect(rt, "a setup");
    store.begin(alloc, setup, BEGIN).expect(rt, "begun");
    let event = burglary(alloc, account(), 1).expect(rt, "memory");
    let _ = store.submit(alloc, 0, event, BEGIN).expect(rt, "recorded");
    store
}

// How the answering of an input ends, of whose port these reads and writes fail, and what is written.
fn feeds(
    rt: &impl Abort,
    alloc: Global,
    store: &mut Store<MemDisk>,
    input: &[u8],
    failing: (&[u64], &[u64]),
    want: (FeedEnd, &[u8]),
) {
    let port = failing_port(alloc, input, failing.0, failing.1);
    let mut port = port.expect(rt, "memory");
    let end = serve_feed(alloc, store, &mut port);
    same(rt, end, want.0, "how the input ended");
    same(rt, port.sink.bytes(), want.1, "what was written");
    drop(port);
}

// How the following of an input ends, from nothing on, and what is written. The store then.
fn followed(
    rt: &impl Abort,
    alloc: Global,
    input: &[u8],
    failing: (&[u64], &[u64]),
    want: (FollowEnd, &[u8]),
) -> Store<MemDisk> {
    let port = failing_port(alloc, input, failing.0, failing.1);
    let mut port = port.expect(rt, "memory");
    let mut mirror = Mirror::new(empty(rt, alloc));
    let end = follow(alloc, &mut mirror, &mut port);
    same(rt, end, want.0, "how the input ended");
    same(rt, port.sink.bytes(), want.1, "what was written");
    drop(port);
    mirror.close()
}

// The same, and how many entries are recorded then.
fn follows(
    rt: &impl Abort,
    alloc: Global,
    input: &[u8],
    failing: (&[u64], &[u64]),
    want: (FollowEnd, u64, &[u8]),
) {
    let (end, recorded, written) = want;
    let store = followed(rt, alloc, input, failing, (end, written));
    same(rt, store.centre().recorded(), recorded, "recorded");
    drop(store);
}

#[test]
fn a_second_centre_has_all_records_of_the_first(rt: HostRuntime) {
    let alloc = rt.alloc();
    let mut store = primary(&rt, alloc);
    feeds(
        &rt,
        alloc,
        &mut store,
        ASKS,
        (&[], &[]),
        (FeedEnd::Done, ANSWERS),
    );
    let first = store.close();
    let want = (FollowEnd::Done, ASKS);
    let second = followed(&rt, alloc, ANSWERS, (&[], &[]), want).close();
    same(&rt, second.bytes(Area::A), first.bytes(Area::A), "the area");
    drop(second);
    drop(first);
}

#[test]
fn what_is_summed_up_is_behind(rt: HostRuntime) {
    let alloc = rt.alloc();
    let mut store = primary(&rt, alloc);
    store.checkpoint(alloc).expect(&rt, "a checkpoint");
    let behind = b"B\0\0\0\0\0\0\0\x03";
    let asks = b"G\0\0\0\0\0\0\0\0G\0\0\0\0\0\0\0\x02G\0\0\0\0\0\0\0\x03";
    let answers = b"B\0\0\0\0\0\0\0\x03B\0\0\0\0\0\0\0\x03E";
    feeds(
        &rt,
        alloc,
        &mut store,
        asks,
        (&[], &[]),
        (FeedEnd::Done, answers),
    );
    drop(store);
    let end = FollowEnd::Behind { have: 0, count: 3 };
    follows(&rt, alloc, behind, (&[], &[]), (end, 0, &ASKS[..9]));
    let old = b"B\0\0\0\0\0\0\0\0E";
    let twice = b"G\0\0\0\0\0\0\0\0G\0\0\0\0\0\0\0\0";
    follows(&rt, alloc, old, (&[], &[]), (FollowEnd::Done, 0, twice));
}

// An input that ends or is none behind so many asks that were answered.
fn strange_ask(rt: &impl Abort, alloc: Global, store: &mut Store<MemDisk>, input: &[u8]) {
    let end = FeedEnd::Strange { after: 1 };
    feeds(rt, alloc, store, input, (&[], &[]), (end, b"E"));
}

#[test]
fn asks_that_are_none(rt: HostRuntime) {
    let alloc = rt.alloc();
    let mut store = empty(&rt, alloc);
    feeds(
        &rt,
        alloc,
        &mut store,
        b"",
        (&[], &[]),
        (FeedEnd::Done, b""),
    );
    let most = b"G\0\0\xff\xff\xff\xff\xff\xff";
    feeds(
        &rt,
        alloc,
        &mut store,
        most,
        (&[], &[]),
        (FeedEnd::Done, b"E"),
    );
    let over = b"G\0\0\0\0\0\0\0\0G\0\x01\0\0\0\0\0\0";
    for end in 10..19 {
        strange_ask(&rt, alloc, &mut store, &over[..end]);
    }
    for letter in 0..=255 {
        if letter != b'G' {
            let input = [b'G', 0, 0, 0, 0, 0, 0, 0, 0, letter];
            strange_ask(&rt, alloc, &mut store, &input);
        }
    }
    drop(store);
}

// Bytes that are no answer, or none that can follow, behind three that are.
fn strange_answer(rt: &impl Abort, alloc: Global, last: &[u8]) {
    let mut input = ANSWERS[..112].to_vec(alloc).expect(rt, "memory");
    input.extend_from_slice(last).expect(rt, "memory");
    let end = FollowEnd::Strange { after: 3 };
    follows(rt, alloc, &input, (&[], &[]), (end, 3, ASKS));
}

#[test]
fn answers_that_are_none(rt: HostRuntime) {
    let alloc = rt.alloc();
    for letter in 0..=255 {
        if letter != b'B' && letter != b'E' && letter != b'R' {
            strange_answer(&rt, alloc, &[letter]);
        }
    }
    strange_answer(&rt, alloc, b"R\0\0\0\0\0\0\0\x04\0\0\0\0");
    strange_answer(&rt, alloc, b"R\0\0\0\0\0\0\0\x04\0\x40\0\x61");
    strange_answer(&rt, alloc, b"R\0\0\0\0\0\0\0\x04\0\0\0\x01\xff");
    // A message that is repeated would be quiet, an earlier moment can't follow, and one without its line's name is of the first version.
    strange_answer(
        &rt,
        alloc,
        b"R\0\0\0\0\0\0\0\x04\0\0\0\x26\x03\0\0\0\0\x3b\x9a\xca\0\x041234\0\x010\0\x01\x02\0\x0b1131 01 001\x04line",
    );
    strange_answer(
        &rt,
        alloc,
        b"R\0\0\0\0\0\0\0\x04\0\0\0\x09\x02\0\0\0\0\x3b\x9a\xc9\xff",
    );
    strange_answer(
        &rt,
        alloc,
        b"R\0\0\0\0\0\0\0\x04\0\0\0\x21\x03\0\0\0\0\x3b\x9a\xca\0\x041234\0\x010\0\x02\x02\0\x0b1131 01 001",
    );
}

#[test]
fn an_answer_for_another_number_is_passed(rt: HostRuntime) {
    let alloc = rt.alloc();
    let input = b"R\0\0\0\0\0\0\0\x02\0\0\0\x09\x02\0\0\0\0\x3b\x9a\xca\0E";
    let twice = b"G\0\0\0\0\0\0\0\0G\0\0\0\0\0\0\0\0";
    follows(&rt, alloc, input, (&[], &[]), (FollowEnd::Done, 0, twice));
}

#[test]
fn faults_of_the_port(rt: HostRuntime) {
    let alloc = rt.alloc();
    let mut store = empty(&rt, alloc);
    let asks = &ASKS[..18];
    for call in 1..6 {
        let wrote: &[u8] = if call < 3 {
            b""
        } else if call < 5 {
            b"E"
        } else {
            b"EE"
        };
        let read = (FeedEnd::ReadFault, wrote);
        feeds(&rt, alloc, &mut store, asks, (&[call], &[]), read);
    }
    let write = (FeedEnd::WriteFault, b"E".as_slice());
    feeds(&rt, alloc, &mut store, asks, (&[], &[2]), write);
    drop(store);
    for call in 1..4 {
        let read = (FollowEnd::ReadFault, 0, &ASKS[..9]);
        follows(&rt, alloc, ANSWERS, (&[call], &[]), read);
    }
    let read = (FollowEnd::ReadFault, 1, &ASKS[..18]);
    follows(&rt, alloc, ANSWERS, (&[4], &[]), read);
    let write = (FollowEnd::WriteFault, 1, &ASKS[..9]);
    follows(&rt, alloc, ANSWERS, (&[], &[2]), write);
}
