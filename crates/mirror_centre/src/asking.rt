// Following another centre: asking for its next record, and taking that, until it has no more.
ghost use Rattle.std.specs.Prelude.{◌≡◌, ◌≤◌, ◌<◌, ◌+◌, ◌++◌, ◌∷◌, ◌^◌, [], ℕ, List, false, IfErr, IfOk, OnOk, length};
ghost use Rattle.std.specs.Int.{from_be_bytes, w32};
ghost use Rattle.std.specs.Io.KnownBytes.{prepend_known};
ghost use Rattle.arc_io.specs.Seen.{PortSeen};
ghost use Rattle.arc_io.specs.Told.{OnlyReads};
ghost use Rattle.centre_rules.specs.History.{Entry};
ghost use Rattle.centre_rules.specs.Summary.{Summary};
ghost use Rattle.centre_store.specs.Followings.{ShowsOfReplay};
ghost use Rattle.centre_store.specs.Stores.{StoreStands};
ghost use Rattle.session_rules.specs.Inputs.{input_limit};
ghost use Rattle.mirror_centre.specs.Following.{MayHave, ReadsAnswer, ReadsMore, ReadsNone, TakesNone, TakesTurn, end_by, outcome_of};
ghost use Rattle.mirror_centre.specs.Follows.{HasFollowed};

use crate::follow_end::FollowEnd;
use crate::intake::{Short, read_next};
use crate::mirror::{Mirror, Took};
use arc_io::{Disk, Failed, Port, put};
use centre_core::Stop;
use std::alloc::Global;

// The most bytes that a body may have.
const MOST: u32 = 4_194_400;

/// Asks on the port's sink for the record behind those that are recorded here, reads one answer on its source, takes it, and goes on so,
/// until the other centre has no more. No byte behind an answer is read. `Done` comes where the other centre answers so; `Behind` where its
/// summary has what comes next here; `Strange` where the input ends within an answer or before one, where its bytes are none, or where no
/// event goes on with the record that it brings; `Stopped` where the store stopped, or memory was wanted. What was taken before is recorded
/// in each case. The port's clock is not asked: each event has the moment that it has there. In which order bytes are read and written the
/// clauses say where a write failed; else tests show it.
pub fn follow<P: Port, D: Disk>(alloc: Global, mirror: &mut Mirror<D>, port: &mut P) -> FollowEnd
    requires not_ended { (P.seen port.old).ended ≡ false }
    ensures followed { (b : Summary) (h : List Entry) → StoreStands D.seen b mirror.old h
        → (h' : List Entry) × StoreStands D.seen b mirror.new h'
        × HasFollowed (λ body stop. ShowsOfReplay D.seen mirror.new body stop) result b h h' (P.seen port.old) (P.seen port.new) }
    ensures at_open { mirror.new.at_open ≡ mirror.old.at_open }
    ensures limits { mirror.new.journal.limits ≡ mirror.old.journal.limits }
    ensures later { (D.seen mirror.old.journal.disk).faults ≤ (D.seen mirror.new.journal.disk).faults }
{
    let mut taken = 0;
    let mut after = 0;
    'answers: loop {
        match take_one(alloc, mirror, port, taken, after) {
            Ok(size) => taken += size,
            Err(end) => return end,
        }
        after += 1;
    }
}

// Asks, reads an answer behind so many bytes and so many answers, and takes it. Answers how many bytes it has.
fn take_one<P: Port, D: Disk>(
    alloc: Global,
    mirror: &mut Mirror<D>,
    port: &mut P,
    taken: u64,
    after: u64,
) -> Result<u64, FollowEnd>
    requires not_ended { (P.seen port.old).ended ≡ false }
    requires few { taken ≤ input_limit }
    ensures turn { IfOk result (λ size. (b : Summary) (h : List Entry) → StoreStands D.seen b mirror.old h
        → TakesTurn D.seen b h mirror.new size (P.seen port.old) (P.seen port.new)) }
    ensures none { IfErr result (λ end. (b : Summary) (h : List Entry) → StoreStands D.seen b mirror.old h
        → StoreStands D.seen b mirror.new h
        × TakesNone (λ body stop. ShowsOfReplay D.seen mirror.new body stop) end b h after taken (P.seen port.old) (P.seen port.new)) }
    ensures few { IfOk result (λ size. taken + size ≤ input_limit) }
    ensures some { IfOk result (λ size. 0 < size) }
    ensures not_ended { OnOk result ((P.seen port.new).ended ≡ false) }
    ensures at_open { mirror.new.at_open ≡ mirror.old.at_open }
    ensures limits { mirror.new.journal.limits ≡ mirror.old.journal.limits }
    ensures later { (D.seen mirror.old.journal.disk).faults ≤ (D.seen mirror.new.journal.disk).faults }
{
    let ask = mirror.ask();
    if let Err(Failed) = put(port, &ask) {
        return Err(FollowEnd::WriteFault);
    }
    let message = read_answer(alloc, port, taken, after)?;
    let took = mirror.take(alloc, &message);
    outcome_of(took, message.len() as u64, after)
}

// What taking an answer of so many bytes, behind so many answers, comes to: the following goes on behind it, or ends.
fn outcome_of(took: Result<Took, Stop>, size: u64, after: u64) -> Result<u64, FollowEnd>
    ensures { result ≡ outcome_of took size after }
{
    match took {
        Ok(Took::Added) | Ok(Took::Old) => Ok(size),
        Ok(Took::Idle) => Err(FollowEnd::Done),
        Ok(Took::Behind { have, count }) => Err(FollowEnd::Behind { have, count }),
        Ok(Took::Strange) => Err(FollowEnd::Strange { after }),
        Err(stop) => Err(FollowEnd::Stopped(stop)),
    }
}

// Reads an answer behind so many bytes, and so many answers.
fn read_answer<P: Port>(
    alloc: Global,
    port: &mut P,
    taken: u64,
    after: u64,
) -> Result<Vec<u8>, FollowEnd>
    requires not_ended { (P.seen port.old).ended ≡ false }
    requires few { taken ≤ input_limit }
    ensures read { IfOk result (λ message. ReadsAnswer taken message.items (P.seen port.old) (P.seen port.new)) }
    ensures none { IfErr result (λ end. ReadsNone end after taken [] (P.seen port.old) (P.seen port.new)) }
    ensures only { OnlyReads (P.seen port.old) (P.seen port.new) }
    ensures later { (P.seen port.old).read_faults ≤ (P.seen port.new).read_faults }
{
    let letter = read_behind(alloc, port, taken, after, Vec::new(alloc), 1)?;
    match letter[0] {
        b'E' => Ok(letter),
        b'B' => read_count(alloc, port, taken, after, letter),
        b'R' => read_record(alloc, port, taken, after, letter),
        _ => Err(FollowEnd::Strange { after }),
    }
}

// Reads the rest of an answer that tells how many entries are summed up, of which the letter was read.
fn read_count<P: Port>(
    alloc: Global,
    port: &mut P,
    taken: u64,
    after: u64,
    letter: Vec<u8>,
) -> Result<Vec<u8>, FollowEnd>
    requires not_ended { (P.seen port.old).ended ≡ false }
    requires few { taken + length letter.items ≤ input_limit }
    requires letter { letter.items ≡ 66 ∷ [] }
    ensures read { IfOk result (λ message. (p : PortSeen) → p.left ≡ prepend_known letter.items (P.seen port.old).left
        → ReadsAnswer taken message.items p (P.seen port.new)) }
    ensures none { IfErr result (λ end. ReadsNone end after taken letter.items (P.seen port.old) (P.seen port.new)) }
    ensures only { OnlyReads (P.seen port.old) (P.seen port.new) }
    ensures later { (P.seen port.old).read_faults ≤ (P.seen port.new).read_faults }
{
    read_behind(alloc, port, taken, after, letter, 8)
}

// Reads the rest of an answer with a record, of which the letter was read.
fn read_record<P: Port>(
    alloc: Global,
    port: &mut P,
    taken: u64,
    after: u64,
    letter: Vec<u8>,
) -> Result<Vec<u8>, FollowEnd>
    requires not_ended { (P.seen port.old).ended ≡ false }
    requires few { taken + length letter.items ≤ input_limit }
    requires letter { letter.items ≡ 82 ∷ [] }
    ensures read { IfOk result (λ message. (p : PortSeen) → p.left ≡ prepend_known letter.items (P.seen port.old).left
        → ReadsAnswer taken message.items p (P.seen port.new)) }
    ensures none { IfErr result (λ end. ReadsNone end after taken letter.items (P.seen port.old) (P.seen port.new)) }
    ensures only { OnlyReads (P.seen port.old) (P.seen port.new) }
    ensures later { (P.seen port.old).read_faults ≤ (P.seen port.new).read_faults }
{
    let front = read_behind(alloc, port, taken, after, letter, 12)?;
    let length = size_in(&front[9..]);
    if length == 0 || length > MOST {
        return Err(FollowEnd::Strange { after });
    }
    read_behind(alloc, port, taken, after, front, length as usize)
}

// Reads so many more bytes of an answer.
fn read_behind<P: Port>(
    alloc: Global,
    port: &mut P,
    taken: u64,
    after: u64,
    front: Vec<u8>,
    count: usize,
) -> Result<Vec<u8>, FollowEnd>
    requires not_ended { (P.seen port.old).ended ≡ false }
    requires few { taken + length front.items ≤ input_limit }
    requires may { MayHave front.items count }
    ensures read { IfOk result (λ message. ReadsMore taken front.items message.items count (P.seen port.old) (P.seen port.new)) }
    ensures none { IfErr result (λ end. ReadsNone end after taken front.items (P.seen port.old) (P.seen port.new)) }
    ensures only { OnlyReads (P.seen port.old) (P.seen port.new) }
    ensures later { (P.seen port.old).read_faults ≤ (P.seen port.new).read_faults }
{
    let bytes = match read_next(alloc, port, taken + front.len() as u64, count) {
        Ok(bytes) => bytes,
        Err(short) => return Err(end_of(short, after)),
    };
    let mut message = front;
    let Ok(()) = message.extend_from_slice(&bytes) else {
        return Err(FollowEnd::Stopped(Stop::Memory));
    };
    Ok(message)
}

// A number of four bytes, the highest first.
fn size_in(bytes: &[u8]) -> u32
    requires four { length bytes.now ≡ 4 }
    ensures number { result ≡ from_be_bytes w32 bytes.now }
{
    u32::from_be_bytes([bytes[0], bytes[1], bytes[2], bytes[3]])
}

// The end where an answer is not there whole.
fn end_of(short: Short, after: u64) -> FollowEnd
    ensures { result ≡ end_by short after }
{
    match short {
        Short::Ended => FollowEnd::Strange { after },
        Short::Failed => FollowEnd::ReadFault,
        Short::Spent => FollowEnd::Spent,
        Short::Memory => FollowEnd::Stopped(Stop::Memory),
    }
}
