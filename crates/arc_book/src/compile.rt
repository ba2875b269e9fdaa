// Telling an area: its bodies are read one after the other, each is taken in by a centre, and its line is put on a page.
ghost use Rattle.std.specs.Prelude.{◌≡◌, ◌≤◌, ◌<◌, ◌+◌, ◌^◌, ◌++◌, [], ◌∷◌, ℕ, List, Option, true, false, length, take, is_some, slice_index, IfOk, MatchOption, MatchResult, OnErr};
ghost use Rattle.std.specs.Io.KnownBytes.{append_known};
ghost use Rattle.arc_io.specs.Causes.{HasCause, Rose};
ghost use Rattle.arc_io.specs.Told.{OnlyReads, OnlyWrites};
ghost use Rattle.std.specs.List.{find};
ghost use Rattle.arc_data.specs.Incidents.{has_number};
ghost use Rattle.arc_data.specs.WellFormed.{IsWellFormed};
ghost use Rattle.arc_data.specs.declared.incident.Incident.{Incident};
ghost use Rattle.book_lines.specs.Asked.{AreInRange};
ghost use Rattle.book_lines.specs.Books.{line_if};
ghost use Rattle.book_lines.specs.Choices.{chosen, decided};
ghost use Rattle.book_lines.specs.Summaries.{holdings};
ghost use Rattle.book_lines.specs.Telling.{told};
ghost use Rattle.centre_rules.specs.Carrying.{carried_by};
ghost use Rattle.centre_rules.specs.History.{is_recorded};
ghost use Rattle.centre_rules.specs.State.{StandsFor};
ghost use Rattle.centre_core.specs.Decoding.{IsNoSpelling};
ghost use Rattle.centre_rules.specs.Summary.{Summary, nothing};
ghost use Rattle.centre_store.specs.Pasts.{HasNoNext};
ghost use Rattle.disk_journal.specs.Records.{IsVersion, front as bytes_before};
ghost use Rattle.summary_rules.specs.Conditions.{IsSpelling};
ghost use Rattle.arc_book.specs.Compiled.{IsCompiled, IsScanned, IsTurned, IsFrontWritten};
ghost use Rattle.arc_book.specs.Tapes.{ahead, IsReadTo};
ghost use Rattle.arc_book.specs.Portions.{Portion, bodies_told, HasNoNextIn};
ghost use Rattle.arc_book.specs.Taken.{IsTakenUp, IsSummedUp, put_by};

use crate::status::Status;
use crate::tape::{FIRST, Front, Next, TAG, Tape};
use arc_data::Memory;
use arc_io::{Failed, ReadEnd, Sink, Source, put};
use book_lines::{Held, Options, Page, Verdict, choose, put_line, put_summary};
use centre_core::{Centre, Ready, decode_summary};
use centre_store::entry_in;
use disk_journal::OpenFault;
use std::alloc::Global;
use summary_codec::summary_read;

// A page with more bytes is written out.
const FULL: usize = 65_536;

/// Tells an area of which nothing was read: writes the line of a summary that it begins with and of each record up to the end, but for those
/// that are left on the page.
pub(crate) fn compile<S: Source, K: Sink>(
    alloc: Global,
    options: &Options,
    source: &mut S,
    sink: &mut K,
    tape: &mut Tape,
    page: &mut Page,
) -> Status
    requires ended { (S.seen source.old).ended ≡ false }
    requires range { AreInRange options.now }
    requires fresh { tape.old.intake ≡ [] }
    requires empty { page.old ≡ [] }
    ensures compiled { IsCompiled options.now result (S.seen source.old).left (S.seen source.old) (S.seen source.new) (K.seen sink.old) (K.seen sink.new) page.new }
    ensures short { length page.new ≤ 65536 }
{
    match tape.open(source) {
        Ok(Front::Journal(version)) => {
            let mut centre = Centre::empty(alloc);
            walk(
                alloc,
                options,
                version,
                source,
                sink,
                tape,
                page,
                &mut centre,
            )
        }
        Ok(Front::Fresh) => Status::Done,
        Ok(Front::Refused(fault)) => Status::Journal(fault),
        Err(ReadEnd::Failed) => Status::ReadFault,
        Err(ReadEnd::Memory) => Status::Memory,
    }
}

// Tells all of an area of this version from the first body on.
fn walk<S: Source, K: Sink>(
    alloc: Global,
    options: &Options,
    version: u8,
    source: &mut S,
    sink: &mut K,
    tape: &mut Tape,
    page: &mut Page,
    centre: &mut Centre,
) -> Status
    requires ended { (S.seen source.old).ended ≡ false }
    requires range { AreInRange options.now }
    requires version { IsVersion version }
    requires empty { page.old ≡ [] }
    requires begun { StandsFor nothing centre.old [] }
    ensures compiled { (all : Option (List ℕ)) → IsReadTo version all [] tape.old.gate tape.old.at (ahead tape.old.intake (S.seen source.old).left)
        → IsCompiled options.now result all (S.seen source.old) (S.seen source.new) (K.seen sink.old) (K.seen sink.new) page.new }
    ensures short { length page.new ≤ 65536 }
    ensures later { (S.seen source.old).read_faults ≤ (S.seen source.new).read_faults }
{
    'records: loop {
        let place = tape.at;
        match tape.next(source) {
            Ok(Next::Body) => {}
            Ok(Next::Closed) => return Status::Done,
            Ok(Next::Broken) => return Status::Journal(OpenFault::Damaged { at: place }),
            Ok(Next::Spent) => return Status::Spent,
            Err(ReadEnd::Failed) => return Status::ReadFault,
            Err(ReadEnd::Memory) => return Status::Memory,
        }
        match take_in(alloc, options, version, centre, page, place, &tape.body) {
            Ok(true) => {}
            Ok(false) => return scan(source, version, tape, place),
            Err(Memory) => return Status::Memory,
        }
        let Ok(()) = turn(page, sink) else {
            return Status::WriteFault;
        };
    }
}

// Takes the body in whose gate stands at a place: at the front of the area that of a summary, where it begins as one, and otherwise that of a
// record. False where nothing goes on with it.
#[tactic(auto, using(crate::proofs::Portions::sum_taken, crate::proofs::Portions::sum_bad, crate::proofs::Portions::entry_taken, crate::proofs::Portions::entry_bad))]
fn take_in(
    alloc: Global,
    options: &Options,
    version: u8,
    centre: &mut Centre,
    page: &mut Page,
    place: u64,
    body: &[u8],
) -> Result<bool, Memory>
    requires version { IsVersion version }
    requires range { AreInRange options.now }
    requires room { length page.old ≤ 65536 }
    ensures taken { IfOk result (λ taken. taken ≡ true → (p : Portion version) → place ≡ length (bytes_before version (bodies_told p)) → StandsFor p.base centre.old p.past
        → IsTakenUp options.now p body.now centre.new page.old page.new) }
    ensures bad { IfOk result (λ taken. taken ≡ false → (p : Portion version) → place ≡ length (bytes_before version (bodies_told p)) → StandsFor p.base centre.old p.past
        → HasNoNextIn p body.now) }
    ensures kept { IfOk result (λ taken. taken ≡ false → page.new ≡ page.old) }
    ensures failed { OnErr result (page.new ≡ page.old) }
{
    if is_summary(place, body) {
        sum_up(alloc, options, version, centre, page, body)
    } else {
        take_up(alloc, options, version, centre, page, body)
    }
}

// Whether the body whose gate stands at this place is to be that of a summary.
fn is_summary(place: u64, body: &[u8]) -> bool
    ensures summary { result ≡ true → (place ≡ 16) × (slice_index body.now 0 ≡ 11) }
    ensures other { result ≡ false → place ≡ 16 → slice_index body.now 0 ≡ 11 → ⊥ }
{
    place == FIRST && matches!(body, [TAG, ..])
}

// Has the centre go on from the summary of a body, and puts its line on the page where the options ask for it. False where the body spells
// none.
#[tactic(auto, using(crate::proofs::Helds::moment_held, crate::proofs::Helds::summed_so))]
fn sum_up(
    alloc: Global,
    options: &Options,
    version: u8,
    centre: &mut Centre,
    page: &mut Page,
    body: &[u8],
) -> Result<bool, Memory>
    requires version { IsVersion version }
    requires range { AreInRange options.now }
    requires room { length page.old ≤ 65536 }
    ensures taken { IfOk result (λ taken. taken ≡ true → IsSummedUp version options.now body.now centre.new page.old page.new) }
    ensures bad { IfOk result (λ taken. taken ≡ false → IsNoSpelling version body.now) }
    ensures kept { IfOk result (λ taken. taken ≡ false → page.new ≡ page.old) }
    ensures failed { OnErr result (page.new ≡ page.old) }
{
    let Some(held) = held_in(alloc, version, body)? else {
        return Ok(false);
    };
    let Some((summed, _)) = decode_summary(alloc, version, body)? else {
        return Ok(false);
    };
    *centre = summed;
    put_summary(page, options, &held);
    Ok(true)
}

// What the summary of a body holds, which a centre does not tell. None only where the body spells no summary.
#[tactic(auto, using(crate::proofs::Helds::none_so, crate::proofs::Helds::held_so))]
fn held_in(alloc: Global, version: u8, body: &[u8]) -> Result<Option<Held>, Memory>
    requires { IsVersion version }
    ensures { IfOk result (λ found. MatchOption found (IsNoSpelling version body.now)
        (λ held. (generation : ℕ) (s : Summary) → IsSpelling version generation s body.now → held ≡ holdings s)) }
{
    let Some(read) = summary_read(alloc, version, body)? else {
        return Ok(None);
    };
    Ok(Some(Held {
        recorded: read.head.recorded,
        last: read.head.last,
        accounts: read.rows.len() as u64,
        opened: read.head.opened,
        still_open: read.incidents.len() as u64,
    }))
}

// Takes the event of a body in, and puts the line of its record on the page where the options ask for it. False where no entry goes on with
// it.
fn take_up(
    alloc: Global,
    options: &Options,
    version: u8,
    centre: &mut Centre,
    page: &mut Page,
    body: &[u8],
) -> Result<bool, Memory>
    requires version { IsVersion version }
    requires range { AreInRange options.now }
    requires room { length page.old ≤ 65536 }
    ensures taken { IfOk result (λ taken. taken ≡ true → (p : Portion version) → StandsFor p.base centre.old p.past
        → IsTakenUp options.now p body.now centre.new page.old page.new) }
    ensures bad { IfOk result (λ taken. taken ≡ false → (p : Portion version) → StandsFor p.base centre.old p.past
        → HasNoNext version p.base p.bodies p.past body.now) }
    ensures kept { IfOk result (λ taken. taken ≡ false → page.new ≡ page.old) }
    ensures failed { OnErr result (page.new ≡ page.old) }
{
    let Some(ready) = entry_in(centre, alloc, version, body)? else {
        return Ok(false);
    };
    let start = page.count();
    let verdict = put_chosen(options, centre, &ready, page);
    let _ = centre.apply(ready);
    settle(page, verdict, centre, start);
    Ok(true)
}

// Puts the line of the record that an entry makes, but where the options do not ask for it in any case.
fn put_chosen(options: &Options, centre: &Centre, ready: &Ready, page: &mut Page) -> Verdict
    requires range { AreInRange options.now }
    requires made { ready.now.of ≡ centre.now }
    requires few { centre.now.entries < 2 ^ 48 }
    requires recorded { is_recorded ready.now.reply ≡ true }
    requires formed { IsWellFormed ready.now.event }
    requires room { length page.old ≤ 65536 }
    ensures verdict { (behind : List Incident) → chosen options.now centre.now.sum.incidents behind (carried_by centre.now.sum [] ready.now.event ready.now.at)
        (centre.now.entries + 1) ready.now.at ready.now.event ready.now.reply ≡ decided result behind }
    ensures line { page.new ≡ put_by result page.old (told options.now (centre.now.entries + 1) ready.now.at centre.now.sum.incidents
        (carried_by centre.now.sum [] ready.now.event ready.now.at) ready.now.event ready.now.reply) }
{
    let number = centre.entries() + 1;
    let (at, event, reply) = (ready.at(), ready.event(), ready.reply());
    let (carried, table) = (ready.carried(), centre.table());
    let verdict = choose(options, number, at, event, reply, carried, table);
    if let Verdict::LeftOut = verdict {
        return verdict;
    }
    put_line(page, options, number, at, event, reply, carried, table);
    verdict
}

// Takes the line away that stands from a place on, where the verdict hangs on an incident that is not open.
fn settle(page: &mut Page, verdict: Verdict, centre: &Centre, start: usize)
    requires { start ≤ length page.old }
    ensures { (before line : List ℕ) → start ≡ length before → page.old ≡ put_by verdict before line
        → page.new ≡ before ++ line_if (decided verdict centre.now.sum.incidents) line }
{
    match verdict {
        Verdict::Told | Verdict::LeftOut => {}
        Verdict::Opens(number) => cut_unless_open(page, centre, number, start),
    }
}

// Takes the line away that stands from a place on, where no incident of the number is open.
fn cut_unless_open(page: &mut Page, centre: &Centre, number: u64, start: usize)
    requires { start ≤ length page.old }
    ensures { (before line : List ℕ) → start ≡ length before → page.old ≡ before ++ line
        → page.new ≡ before ++ line_if (is_some (find (has_number number) centre.now.sum.incidents)) line }
{
    match centre.table().get(number) {
        Some(_) => {}
        None => page.cut(start),
    }
}

// Reads on behind a bad body, whose gate stands at this place, to the end of the journal or to where it is damaged.
fn scan<S: Source>(source: &mut S, version: u8, tape: &mut Tape, bad: u64) -> Status
    requires ended { (S.seen source.old).ended ≡ false }
    ensures shown { (all : Option (List ℕ)) (bodies : List (List ℕ)) → IsReadTo version all bodies tape.old.gate tape.old.at (ahead tape.old.intake (S.seen source.old).left)
        → IsScanned version result all bodies bad }
    ensures failed { result ≡ Status.ReadFault → Rose (S.seen source.old).read_faults (S.seen source.new).read_faults }
    ensures later { (S.seen source.old).read_faults ≤ (S.seen source.new).read_faults }
    ensures others { OnlyReads (S.seen source.old) (S.seen source.new) }
{
    'records: loop {
        let place = tape.at;
        match tape.next(source) {
            Ok(Next::Body) => {}
            Ok(Next::Closed) => return Status::Journal(OpenFault::Damaged { at: bad }),
            Ok(Next::Broken) => return Status::Journal(OpenFault::Damaged { at: place }),
            Ok(Next::Spent) => return Status::Spent,
            Err(ReadEnd::Failed) => return Status::ReadFault,
            Err(ReadEnd::Memory) => return Status::Memory,
        }
    }
}

// Writes a full page out.
fn turn<K: Sink>(page: &mut Page, sink: &mut K) -> Result<(), Failed>
    ensures short { length page.new ≤ 65536 }
    ensures text { MatchResult result (λ _. IsTurned (K.seen sink.old).written (K.seen sink.new).written page.old page.new)
        (λ _. IsFrontWritten (K.seen sink.old).written (K.seen sink.new).written page.old) }
    ensures cause { HasCause (K.seen sink.old).write_faults (K.seen sink.new).write_faults result }
    ensures others { OnlyWrites (K.seen sink.old) (K.seen sink.new) }
{
    if page.count() <= FULL {
        return Ok(());
    }
    let written = put(sink, page.bytes());
    page.clear();
    written
}
