// What a store is told and answers, in words.
ghost use Rattle.std.specs.Prelude.{◌≡◌, ◌<◌, ◌^◌, IsTrue};
ghost use Rattle.arc_data.specs.WellFormed.{IsWellFormed};
ghost use Rattle.centre_core.specs.Runs.{IsSubmitted};
ghost use Rattle.centre_core.specs.Setting.{IsSetting};

use super::opening::record_of;
use crate::same::same;
use arc_data::{Blob, Event, Reply, Token};
use arc_io::MemDisk;
use centre_core::{Centre, Done, Setup, Stop};
use centre_store::{Found, Store};
use disk_journal::{Journal, Limits, SHIPPED};
use std::alloc::Global;
use std::fmt::Display;
use std::process::Abort;
use test_fixtures::messages::{account, message};
use test_fixtures::moments::BEGIN;
use test_fixtures::stores::opened;

/// What is told to each part `words=answer` of a row, over the store of a disk. The disk at the end.
pub(super) fn play(
    rt: &impl Abort,
    alloc: Global,
    disk: MemDisk,
    limits: Limits,
    row: &str,
) -> MemDisk
    requires { limits.bytes < 2 ^ 32 }
{
    let mut store = opened(alloc, disk, limits).expect(rt, "opened");
    play_parts(rt, alloc, &mut store, row);
    store.close()
}

/// What is told to each part `words=answer`.
pub(super) fn play_parts(rt: &impl Abort, alloc: Global, store: &mut Store<MemDisk>, row: &str) {
    for part in row.split(';') {
        play_part(rt, alloc, store, part);
    }
}

// The words `M to N` stand for the sequences from M to N.
fn play_part(rt: &impl Abort, alloc: Global, store: &mut Store<MemDisk>, part: &str) {
    let (words, want) = part.split_once('=').expect(rt, "an answer");
    match words.split_once(" to ") {
        Some(ends) => play_messages(rt, alloc, store, ends, want),
        None => {
            let told = told(rt, alloc, store, words);
            same(rt, told.as_str(), want, part);
        }
    }
}

fn play_messages(
    rt: &impl Abort,
    alloc: Global,
    store: &mut Store<MemDisk>,
    ends: (&str, &str),
    want: &str,
) {
    let first = ends.0.parse::<u16>().expect(rt, "a sequence");
    let last = ends.1.parse::<u16>().expect(rt, "a sequence");
    for seq in first..last.saturating_add(1) {
        compare_message(rt, alloc, store, seq, want);
    }
}

fn compare_message(
    rt: &impl Abort,
    alloc: Global,
    store: &mut Store<MemDisk>,
    seq: u16,
    want: &str,
) {
    let told = submitted(rt, alloc, store, alarm(rt, alloc, seq));
    same(rt, (seq, told.as_str()), (seq, want), "a message");
}

/// An alarm with this sequence.
pub(super) fn alarm(rt: &impl Abort, alloc: Global, seq: u16) -> Event
    ensures formed { IsWellFormed result }
    ensures submitted { IsSubmitted result }
{
    numbered(rt, alloc, Token::AdmCid, seq, b"1131 01 001")
}

// What a store says to `begin` and `begin other`, which name a setup; `recorded`, `since`, `checkpoint`, `list`, or a sequence, that of a
// message; `body` with a number, or `take` with the letter of a record; and `faults`, how many its disk had when it was opened, and whether
// it had more since.
fn told(rt: &impl Abort, alloc: Global, store: &mut Store<MemDisk>, words: &str) -> String {
    match words {
        "begin" => begun(rt, alloc, store, b"account 1234\n"),
        "begin other" => begun(rt, alloc, store, b"account 1234\naccount ABC\n"),
        "recorded" => text_of(rt, alloc, store.centre().recorded()),
        "since" => text_of(rt, alloc, store.since()),
        "checkpoint" => summed(rt, alloc, store),
        "faults" => faults_of(rt, alloc, store),
        "list" => submitted(rt, alloc, store, Event::List),
        _ => match words.split_once(' ') {
            Some((word, which)) => followed(rt, alloc, store, word, which),
            None => {
                let seq = words.parse().expect(rt, "a sequence");
                submitted(rt, alloc, store, alarm(rt, alloc, seq))
            }
        },
    }
}

fn followed(
    rt: &impl Abort,
    alloc: Global,
    store: &mut Store<MemDisk>,
    word: &str,
    which: &str,
) -> String {
    match word {
        "body" => found(rt, alloc, store, number_of(rt, which)),
        "take" => taken(rt, alloc, store, letter_of(rt, which)),
        _ => panic!(rt; "no such word"),
    }
}

fn number_of(rt: &impl Abort, which: &str) -> u64 {
    which.parse::<u64>().expect(rt, "a number")
}

fn letter_of(rt: &impl Abort, which: &str) -> char {
    which.chars().next().expect(rt, "a letter")
}

// The letter of the record that has the body of a number, or where there is none. What the body is put into stays then.
fn found(rt: &impl Abort, alloc: Global, store: &mut Store<MemDisk>, number: u64) -> String {
    let mut out = Blob::of(alloc, b"before").expect(rt, "memory");
    let told = match store.body(alloc, number, &mut out) {
        Ok(Found::Body) => format!(in alloc; "{}", named_body(out.bytes())).expect(rt, "memory"),
        Ok(Found::InSummary) => text_of(rt, alloc, "summed"),
        Ok(Found::Ahead) => text_of(rt, alloc, "ahead"),
        Err(stop) => named(rt, alloc, stop),
    };
    let stays = out.bytes() == b"before".as_slice() || told.len() == 1;
    same(rt, (number, stays), (number, true), "the bytes before");
    drop(out);
    told
}

fn named_body(body: &[u8]) -> char {
    for letter in "asmt".chars() {
        if record_of(letter).get(5..) == Some(body) {
            return letter;
        }
    }
    '?'
}

fn taken(rt: &impl Abort, alloc: Global, store: &mut Store<MemDisk>, letter: char) -> String {
    let body = record_of(letter).get(5..).expect(rt, "a body");
    match store.replay(alloc, body) {
        Ok(taken) => text_of(rt, alloc, taken),
        Err(stop) => named(rt, alloc, stop),
    }
}

fn text_of<T: Display + Drop>(rt: &impl Abort, alloc: Global, told: T) -> String {
    format!(in alloc; "{told}").expect(rt, "memory")
}

fn faults_of(rt: &impl Abort, alloc: Global, store: &Store<MemDisk>) -> String {
    let (at_open, has_failed) = (store.at_open(), store.has_failed());
    format!(in alloc; "{at_open} {has_failed}").expect(rt, "memory")
}

fn begun(rt: &impl Abort, alloc: Global, store: &mut Store<MemDisk>, text: &[u8]) -> String {
    let setup = Setup::read(alloc, text).expect(rt, "a setup");
    match store.begin(alloc, setup, BEGIN) {
        Ok(()) => text_of(rt, alloc, "begun"),
        Err(stop) => named(rt, alloc, stop),
    }
}

fn summed(rt: &impl Abort, alloc: Global, store: &mut Store<MemDisk>) -> String {
    match store.checkpoint(alloc) {
        Ok(()) => text_of(rt, alloc, "made"),
        Err(stop) => named(rt, alloc, stop),
    }
}

/// What is told to an event of the caller 7.
pub(super) fn submitted(
    rt: &impl Abort,
    alloc: Global,
    store: &mut Store<MemDisk>,
    event: Event,
) -> String
    requires formed { IsWellFormed event }
    requires submitted { IsSubmitted event }
{
    assert!(rt; has_begun(store), "not begun");
    match store.submit(alloc, 7, event, BEGIN) {
        Ok(done) => answered(rt, alloc, &done),
        Err(stop) => named(rt, alloc, stop),
    }
}

fn answered(rt: &impl Abort, alloc: Global, done: &Done) -> String {
    let (caller, word) = (done.caller, word_of(&done.reply));
    format!(in alloc; "{caller} {word}").expect(rt, "memory")
}

/// The stop with its numbers, and a first fault of the disk as `down`.
pub(super) fn named(rt: &impl Abort, alloc: Global, stop: Stop) -> String {
    match stop {
        Stop::Down { at_open: 0, now: 1 } => text_of(rt, alloc, "down"),
        _ => format!(in alloc; "{stop:?}").expect(rt, "memory"),
    }
}

/// A setup is in force.
pub(super) fn has_begun(store: &Store<MemDisk>) -> bool
    ensures { IsTrue result → IsSetting store.now.state.sum.text }
{
    match store.centre().setup() {
        Some(setup) => {
            let _text = setup.text();
            true
        }
        None => false,
    }
}

/// The reply in a word.
pub(super) fn word_of(reply: &Reply) -> &'static str {
    match reply {
        Reply::Taken => "taken",
        Reply::Repeat { .. } => "repeat",
        Reply::Listed(_) => "listed",
        _ => "another reply",
    }
}

/// A message with this sequence and content.
pub(super) fn numbered(
    rt: &impl Abort,
    alloc: Global,
    token: Token,
    seq: u16,
    content: &[u8],
) -> Event
    ensures formed { IsWellFormed result }
    ensures submitted { IsSubmitted result }
{
    assert!(rt; seq <= 9999 && content.len() <= 4095, "a message");
    message(alloc, account(), seq, token, content).expect(rt, "memory")
}

/// The bytes of the centre's summary, as one of the first generation.
pub(super) fn summary_of(rt: &impl Abort, alloc: Global, centre: &Centre) -> Vec<u8> {
    let mut bytes = Vec::new(alloc);
    let written = centre.summary(alloc, 1, &mut bytes);
    same(rt, written, Ok(()), "memory");
    bytes
}

/// What the journal of a disk has: the generation, the bytes that are used, and the records behind the summary.
pub(super) fn left_of(rt: &impl Abort, alloc: Global, disk: MemDisk) -> String {
    match Journal::open(alloc, disk, SHIPPED) {
        Ok((journal, bodies)) => {
            let (generation, used) = (journal.generation(), journal.used());
            let records = journal.records();
            drop(journal);
            drop(bodies);
            format!(in alloc; "{generation} {used} {records}").expect(rt, "memory")
        }
        Err(_) => panic!(rt; "not opened"),
    }
}
