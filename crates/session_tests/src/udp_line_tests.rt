// What no clause says: that datagrams are answered, byte for byte.
use crate::same::same;
use crate::told::Told;
use arc_data::Blob;
use arc_doors::{MemInbox, MemMail, MemOutbox};
use arc_io::{ListClock, ListNoise};
use centre_core::{RamHall, Stop};
use std::alloc::Global;
use std::process::Abort;
use test_fixtures::halls::ram_hall;
use test_fixtures::moments::BEGIN;
use udp_line::{MailEnd, serve_mail};

const SETUP: &[u8] = b"account 1234\n";

const ALARM: &[u8] = b"\n2EE70027\"ADM-CID\"0001L0#1234[#1234|1131 01 001]\r";

const REPLY: &[u8] = b"\n1BC10012\"ACK\"0001L0#1234[]\r";

const REFUSAL: &[u8] = b"\n251F0012\"DUH\"0001L0#1234[]\r";

// What the letters of a datagram stand for: an alarm, its first ten bytes, and the rest of it; its reply, and its refusal.
fn part_of(letter: char) -> &'static [u8] {
    match letter {
        'F' => ALARM,
        '<' => &ALARM[..10],
        '>' => &ALARM[10..],
        'A' => REPLY,
        'D' => REFUSAL,
        _ => b"",
    }
}

// The bytes that these letters stand for.
fn spelled(rt: &impl Abort, alloc: Global, letters: &str) -> Blob {
    let mut bytes = Vec::new(alloc);
    for letter in letters.chars() {
        append(rt, &mut bytes, part_of(letter));
    }
    Blob::of_vec(bytes)
}

fn append(rt: &impl Abort, all: &mut Vec<u8>, bytes: &[u8]) {
    all.extend_from_slice(bytes).expect(rt, "memory");
}

// Datagrams, commas between them.
fn datagrams_of(rt: &impl Abort, alloc: Global, row: &str) -> Vec<Blob> {
    let mut datagrams = Vec::new(alloc);
    for letters in row.split(',') {
        push(rt, &mut datagrams, spelled(rt, alloc, letters));
    }
    datagrams
}

fn push(rt: &impl Abort, all: &mut Vec<Blob>, one: Blob) {
    all.push(one).expect(rt, "memory");
}

// A mailbox with these datagrams, whose calls of these numbers fail, none at 0.
fn mail_of(rt: &impl Abort, alloc: Global, row: &str, receive: u64, reply: u64) -> MemMail {
    let datagrams = datagrams_of(rt, alloc, row);
    let receives = [receive].to_vec(alloc).expect(rt, "memory");
    let replies = [reply].to_vec(alloc).expect(rt, "memory");
    let moments = [BEGIN].to_vec(alloc).expect(rt, "memory");
    MemMail {
        inbox: MemInbox::new(datagrams, receives),
        outbox: MemOutbox::new(alloc, replies),
        clock: ListClock::new(moments),
        noise: ListNoise::new(Vec::new(alloc)),
    }
}

// What was sent is these datagrams.
fn compare_sent(rt: &impl Abort, alloc: Global, sent: &[Blob], wants: &str) {
    let mut left = sent.iter();
    for letters in wants.split_whitespace() {
        let datagram = left.next().expect(rt, "a datagram");
        let want = spelled(rt, alloc, letters);
        same(rt, datagram.bytes(), want.bytes(), wants);
    }
    same(rt, left.next().is_none(), true, wants);
}

// A session of so many datagrams: how it ends, how many entries are recorded then, two of them by the beginning, and what is sent.
fn try_row(
    rt: &impl Abort,
    alloc: Global,
    mut mail: MemMail,
    count: u32,
    want: (MailEnd, u64),
    sent: &str,
) {
    let mut hall = ram_hall(alloc, SETUP).expect(rt, "a hall");
    let end = serve_mail(alloc, &mut hall, &mut mail, count);
    same(rt, (end, recorded_of(hall)), want, sent);
    compare_sent(rt, alloc, mail.outbox.sent(), sent);
    drop(mail);
}

fn recorded_of(hall: RamHall) -> u64 {
    let centre = hall.into_centre();
    let recorded = centre.recorded();
    drop(centre);
    recorded
}

#[test]
fn each_datagram_is_a_line_by_itself(rt: HostRuntime) {
    let alloc = rt.alloc();
    let mail = mail_of(&rt, alloc, "F,<,>,FF", 0, 0);
    try_row(&rt, alloc, mail, 4, (MailEnd::Quota, 3), "A AA");
    let mail = mail_of(&rt, alloc, ",<>,F", 0, 0);
    try_row(&rt, alloc, mail, 9, (MailEnd::Ended, 3), "A A");
}

#[test]
fn as_many_are_served_as_were_asked_for(rt: HostRuntime) {
    let alloc = rt.alloc();
    let mail = mail_of(&rt, alloc, "F,F", 0, 0);
    try_row(&rt, alloc, mail, 0, (MailEnd::Quota, 2), "");
    let mail = mail_of(&rt, alloc, "F,F", 0, 0);
    try_row(&rt, alloc, mail, 1, (MailEnd::Quota, 3), "A");
}

#[test]
fn faults_end_a_session(rt: HostRuntime) {
    let alloc = rt.alloc();
    let mail = mail_of(&rt, alloc, "F,F", 0, 1);
    try_row(&rt, alloc, mail, 4, (MailEnd::WriteFault, 3), "");
    let mail = mail_of(&rt, alloc, "F,F", 2, 0);
    try_row(&rt, alloc, mail, 4, (MailEnd::ReadFault, 3), "A");
}

// A hall of another account, which stops: the first datagram is refused without it, and the second is not answered.
#[test]
fn a_stop_is_not_answered(rt: HostRuntime) {
    let alloc = rt.alloc();
    let mut hall = Told::new(&rt, alloc, b"account 1234\n", Some(Stop::Memory));
    let mut mail = mail_of(&rt, alloc, "<,F,F", 0, 0);
    let end = serve_mail(alloc, &mut hall, &mut mail, 9);
    let came = (end, hall.calls);
    same(&rt, came, (MailEnd::Stopped(Stop::Memory), 1), "the end");
    compare_sent(&rt, alloc, mail.outbox.sent(), "");
    drop(mail);
    drop(hall);
}

#[test]
fn an_unknown_account_is_refused(rt: HostRuntime) {
    let alloc = rt.alloc();
    let mut hall = Told::new(&rt, alloc, b"account 7777\n", Some(Stop::Memory));
    let mut mail = mail_of(&rt, alloc, "F,FF", 0, 0);
    let end = serve_mail(alloc, &mut hall, &mut mail, 2);
    same(&rt, (end, hall.calls), (MailEnd::Quota, 0), "the end");
    compare_sent(&rt, alloc, mail.outbox.sent(), "D DD");
    drop(mail);
    drop(hall);
}
