// Answering the asks of an input, one after another.
ghost use Rattle.std.specs.Prelude.{◌≡◌, ◌≤◌, ◌<◌, ◌+◌, ◌*◌, ◌^◌, ◌∷◌, [], List, false, IfErr, IfOk, OnOk, length};
ghost use Rattle.std.specs.Int.{from_be_bytes, w64};
ghost use Rattle.std.specs.Io.KnownBytes.{prepend_known};
ghost use Rattle.arc_io.specs.Crashes.{IsQuiet};
ghost use Rattle.arc_io.specs.Told.{OnlyReads};
ghost use Rattle.centre_rules.specs.History.{Entry};
ghost use Rattle.centre_rules.specs.Summary.{Summary};
ghost use Rattle.centre_store.specs.Stores.{StandsOn, StoreStands};
ghost use Rattle.session_rules.specs.Inputs.{input_limit};
ghost use Rattle.disk_journal.specs.Journal.{IsReadOf};
ghost use Rattle.mirror_centre.specs.Answers.{IsAnsweredWith};
ghost use Rattle.mirror_centre.specs.Feeding.{AnswersAsk, AnswersNone, IsReadAlone, ReadsAsk, ReadsNone, end_before, end_within};
ghost use Rattle.mirror_centre.specs.Feeds.{HasFed};
ghost use Rattle.mirror_centre.specs.Shown.{ShowsFeed};

use crate::answering::answer;
use crate::feed_end::FeedEnd;
use crate::intake::{Short, read_next};
use arc_io::{Disk, Failed, Port, put};
use centre_core::Stop;
use centre_store::Store;
use std::alloc::Global;

// How many bytes an ask has: its letter, and a number.
const ASK: u64 = 9;

// What an ask names lies below this.
const NUMBERS: u64 = 1 << 48;

/// Answers each ask on the port's source by what the store has recorded, on its sink, until the input ends. No byte behind an ask is read
/// before it is answered. `Done` comes where the input ends behind an ask, or before the first; `Strange` where the first byte of an ask is
/// not `G`, where it names 281,474,976,710,656 (2^48) or more, or where the input ends within it; `Stopped` where a record could not be
/// read again, or memory was wanted. Nothing is recorded, and the port's clock is not asked. In which order bytes are read and written the
/// clauses say where a write failed or the store stopped; else tests show it.
pub fn serve_feed<P: Port, D: Disk>(alloc: Global, store: &mut Store<D>, port: &mut P) -> FeedEnd
    requires not_ended { (P.seen port.old).ended ≡ false }
    ensures fed { (b : Summary) (h : List Entry) → StoreStands D.seen b store.old h
        → HasFed (IsAnsweredWith D.seen b h store.old) result (P.seen port.old) (P.seen port.new) }
    ensures shown { ShowsFeed D.seen result store.new }
    ensures stands { StandsOn D.seen store.old store.new }
    ensures quiet { IsQuiet (D.seen store.old.journal.disk) (D.seen store.new.journal.disk) }
    ensures at_open { store.new.at_open ≡ store.old.at_open }
    ensures limits { store.new.journal.limits ≡ store.old.journal.limits }
{
    let mut answered = 0;
    'asks: loop {
        if let Err(end) = serve_ask(alloc, store, port, answered) {
            return end;
        }
        answered += 1;
    }
}

// Reads an ask behind so many that were answered, and answers it.
fn serve_ask<P: Port, D: Disk>(
    alloc: Global,
    store: &mut Store<D>,
    port: &mut P,
    answered: u64,
) -> Result<(), FeedEnd>
    requires not_ended { (P.seen port.old).ended ≡ false }
    requires few { 9 * answered ≤ input_limit }
    ensures asked { IfOk result (λ _. (b : Summary) (h : List Entry) → StoreStands D.seen b store.old h
        → AnswersAsk (IsAnsweredWith D.seen b h store.old) (P.seen port.old) (P.seen port.new)) }
    ensures none { IfErr result (λ end. (b : Summary) (h : List Entry) → StoreStands D.seen b store.old h
        → AnswersNone (IsAnsweredWith D.seen b h store.old) end answered (P.seen port.old) (P.seen port.new)) }
    ensures few { OnOk result (9 * (answered + 1) ≤ input_limit) }
    ensures not_ended { OnOk result ((P.seen port.new).ended ≡ false) }
    ensures shown { IfErr result (λ end. ShowsFeed D.seen end store.new) }
    ensures stands { StandsOn D.seen store.old store.new }
    ensures state { store.new.state ≡ store.old.state }
    ensures same { IsReadOf store.old.journal store.new.journal }
    ensures quiet { IsQuiet (D.seen store.old.journal.disk) (D.seen store.new.journal.disk) }
    ensures at_open { store.new.at_open ≡ store.old.at_open }
    ensures limits { store.new.journal.limits ≡ store.old.journal.limits }
{
    let number = read_ask(alloc, port, answered)?;
    let mut text = Vec::new(alloc);
    if let Err(stop) = answer(store, alloc, number, &mut text) {
        return Err(FeedEnd::Stopped(stop));
    }
    match put(port, &text) {
        Ok(()) => Ok(()),
        Err(Failed) => Err(FeedEnd::WriteFault),
    }
}

// Reads an ask behind so many that were answered, and answers what it names.
fn read_ask<P: Port>(alloc: Global, port: &mut P, answered: u64) -> Result<u64, FeedEnd>
    requires not_ended { (P.seen port.old).ended ≡ false }
    requires few { 9 * answered ≤ input_limit }
    ensures asked { IfOk result (λ n. ReadsAsk n (P.seen port.old) (P.seen port.new)) }
    ensures none { IfErr result (λ end. ReadsNone end answered (P.seen port.old) (P.seen port.new)) }
    ensures stop { IfErr result IsReadAlone }
    ensures few { OnOk result (9 * (answered + 1) ≤ input_limit) }
    ensures only { OnlyReads (P.seen port.old) (P.seen port.new) }
    ensures later { (P.seen port.old).read_faults ≤ (P.seen port.new).read_faults }
{
    read_letter(alloc, port, answered)?;
    let bytes = match read_next(alloc, port, ASK * answered + 1, 8) {
        Ok(bytes) => bytes,
        Err(short) => return Err(end_within(short, answered)),
    };
    let number = number_in(&bytes);
    if number < NUMBERS {
        Ok(number)
    } else {
        Err(FeedEnd::Strange { after: answered })
    }
}

// Reads the letter of an ask behind so many that were answered.
fn read_letter<P: Port>(alloc: Global, port: &mut P, answered: u64) -> Result<(), FeedEnd>
    requires not_ended { (P.seen port.old).ended ≡ false }
    requires few { 9 * answered ≤ input_limit }
    ensures letter { OnOk result ((P.seen port.old).left ≡ prepend_known (71 ∷ []) (P.seen port.new).left) }
    ensures few { OnOk result (9 * answered + 1 ≤ input_limit) }
    ensures not_ended { OnOk result ((P.seen port.new).ended ≡ false) }
    ensures none { IfErr result (λ end. ReadsNone end answered (P.seen port.old) (P.seen port.new)) }
    ensures stop { IfErr result IsReadAlone }
    ensures only { OnlyReads (P.seen port.old) (P.seen port.new) }
    ensures later { (P.seen port.old).read_faults ≤ (P.seen port.new).read_faults }
{
    let letter = match read_next(alloc, port, ASK * answered, 1) {
        Ok(letter) => letter,
        Err(short) => return Err(end_before(short)),
    };
    if letter[0] == b'G' {
        Ok(())
    } else {
        Err(FeedEnd::Strange { after: answered })
    }
}

// The end where no byte of an ask is there.
fn end_before(short: Short) -> FeedEnd
    ensures { result ≡ end_before short }
{
    match short {
        Short::Ended => FeedEnd::Done,
        Short::Failed => FeedEnd::ReadFault,
        Short::Spent => FeedEnd::Spent,
        Short::Memory => FeedEnd::Stopped(Stop::Memory),
    }
}

// The end where an ask that has begun is not there whole.
fn end_within(short: Short, answered: u64) -> FeedEnd
    ensures { result ≡ end_within short answered }
{
    match short {
        Short::Ended => FeedEnd::Strange { after: answered },
        Short::Failed => FeedEnd::ReadFault,
        Short::Spent => FeedEnd::Spent,
        Short::Memory => FeedEnd::Stopped(Stop::Memory),
    }
}

// A number of eight bytes, the highest first.
fn number_in(bytes: &[u8]) -> u64
    requires eight { length bytes.now ≡ 8 }
    ensures number { result ≡ from_be_bytes w64 bytes.now }
{
    u64::from_be_bytes([
        bytes[0], bytes[1], bytes[2], bytes[3], bytes[4], bytes[5], bytes[6], bytes[7],
    ])
}
