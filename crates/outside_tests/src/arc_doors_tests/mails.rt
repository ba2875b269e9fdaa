// Mailboxes in memory. Their calls stand in rows.
use crate::rows::{halves, numbers};
use crate::same::{holds, same};
use arc_data::Blob;
use arc_doors::{DATAGRAM_ROOM, Mailbox, MemInbox, MemMail, MemOutbox};
use arc_io::{Clock, Failed, ListClock, ListNoise, Noise};
use std::alloc::Global;
use std::process::Abort;

// A mailbox with these datagrams, of which those calls fail. Its clock gives 7, and its noise ten letters.
pub fn mail_of(
    rt: &impl Abort,
    alloc: Global,
    datagrams: Vec<Blob>,
    receives: Vec<u64>,
    replies: Vec<u64>,
) -> MemMail {
    let moments = [7].to_vec(alloc).expect(rt, "memory");
    let tens = [*b"abcdefghij"].to_vec(alloc).expect(rt, "memory");
    MemMail {
        inbox: MemInbox::new(datagrams, receives),
        outbox: MemOutbox::new(alloc, replies),
        clock: ListClock::new(moments),
        noise: ListNoise::new(tens),
    }
}

// The datagrams `one`, one without a byte, and `three`.
fn three_datagrams(rt: &impl Abort, alloc: Global) -> Vec<Blob> {
    let (one, none) = (Blob::of(alloc, b"one"), Blob::of(alloc, b""));
    let three = Blob::of(alloc, b"three").expect(rt, "memory");
    let (one, none) = (one.expect(rt, "memory"), none.expect(rt, "memory"));
    Vec::from_array(alloc, [one, none, three]).expect(rt, "memory")
}

// The numbers of the calls of `receive` and of `reply` that fail; what each call does, which receives a datagram and replies with it
// (its bytes, `!` where a call failed, `-` where none came); the datagrams that were sent; and the faults of both.
const CALLS: &str = "\
= =one..three.-=one,,three=0 0
1= =!.one..three.-=one,,three=1 0
2 4= =one.!..!.three.-=one,,three=2 0
=1=one!..three.-=,three=0 1
=2 3=one.!.three!.-=one=0 2
1 2=1=!.!.one!..three.-=,three=2 1";

#[test]
fn gives_its_datagrams_over_failing_calls(rt: HostRuntime) {
    for row in CALLS.lines() {
        compare_calls(&rt, rt.alloc(), row);
    }
}

fn compare_calls(rt: &impl Abort, alloc: Global, row: &str) {
    let (receives, rest) = halves(rt, row, '=');
    let (replies, rest) = halves(rt, rest, '=');
    let (steps, rest) = halves(rt, rest, '=');
    let (sent, faults) = halves(rt, rest, '=');
    let (receives, replies) = (numbers(rt, alloc, receives), numbers(rt, alloc, replies));
    let mut mail = mail_of(rt, alloc, three_datagrams(rt, alloc), receives, replies);
    for step in steps.split('.') {
        compare_step(rt, &mut mail, step, row);
    }
    compare_sent(rt, mail.outbox.sent(), sent, row);
    let told = [mail.receive_faults(), mail.reply_faults()];
    same(
        rt,
        told.as_slice(),
        numbers(rt, alloc, faults).as_slice(),
        row,
    );
}

// Receives the next datagram, and replies with it.
fn compare_step<M: Mailbox>(rt: &impl Abort, mail: &mut M, step: &str, row: &str) {
    let mut buf = [b'?'; DATAGRAM_ROOM];
    match mail.receive(&mut buf) {
        Err(Failed) => same(rt, "!", step, row),
        Ok(None) => same(rt, "-", step, row),
        Ok(Some(count)) => {
            let bytes = &buf[..count];
            let want = step.trim_end_matches('!');
            same(rt, bytes, want.as_bytes(), row);
            let is_sent = mail.reply(bytes).is_ok();
            same(rt, is_sent, want == step, row);
        }
    }
}

fn compare_sent(rt: &impl Abort, sent: &[Blob], wants: &str, row: &str) {
    let mut sent = sent.iter();
    for want in wants.split(',') {
        let datagram = sent.next().expect(rt, "a datagram");
        same(rt, datagram.bytes(), want.as_bytes(), row);
    }
    holds(rt, sent.next().is_none(), row);
}

// Of a datagram of more than 8,192 bytes the first are given, and the rest comes with no later call.
#[test]
fn gives_the_front_of_a_long_datagram(rt: HostRuntime) {
    let mut long = Vec::new(rt.alloc());
    long.resize(65_507, b'a').expect(&rt, "memory");
    let datagrams = Vec::from_array(rt.alloc(), [Blob::of_vec(long)]);
    let datagrams = datagrams.expect(&rt, "memory");
    let (receives, replies) = (Vec::new(rt.alloc()), Vec::new(rt.alloc()));
    let mut mail = mail_of(&rt, rt.alloc(), datagrams, receives, replies);
    let mut buf = [b'?'; DATAGRAM_ROOM];
    same(&rt, mail.receive(&mut buf), Ok(Some(8_192)), "the front");
    holds(&rt, buf.iter().all(|byte| *byte == b'a'), "its bytes");
    same(&rt, mail.receive(&mut buf), Ok(None), "no rest");
}

// A reply before any datagram goes to nobody.
#[test]
fn replies_to_nobody_fail(rt: HostRuntime) {
    let datagrams = three_datagrams(&rt, rt.alloc());
    let (receives, replies) = (Vec::new(rt.alloc()), Vec::new(rt.alloc()));
    let mut mail = mail_of(&rt, rt.alloc(), datagrams, receives, replies);
    same(&rt, mail.reply(b"early"), Err(Failed), "a reply to nobody");
    holds(&rt, mail.outbox.sent().is_empty(), "nothing is sent");
    same(&rt, mail.reply_faults(), 1, "a fault");
    same(
        &rt,
        (mail.now(), mail.ten()),
        (7, *b"abcdefghij"),
        "time, noise",
    );
}
