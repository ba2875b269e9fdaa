// A centre of the bytes of a summary.
ghost use Rattle.std.specs.Prelude.{◌≡◌, ◌≤◌, ◌↔◌, ◌^◌, List, IfOk, MatchOption, IsTrue, map};
ghost use Rattle.std.specs.Option.{option_map};
ghost use Rattle.arc_data.specs.Incidents.{Ascends};
ghost use Rattle.arc_data.specs.Moments.{IsMoment};
ghost use Rattle.event_codec.specs.Spelling.{IsVersion};
ghost use Rattle.summary_rules.specs.Lists.{Every, EveryTwo};
ghost use Rattle.summary_rules.specs.Fields.{HasFields};
ghost use Rattle.summary_rules.specs.Conditions.{AreNamedIn, IsApart};
ghost use Rattle.summary_codec.specs.Parts.{row_of_read, summary_of_read};
ghost use Rattle.centre_core.specs.Decoding.{IsNoSpelling, IsDecoded, IsNoSummary, IsKeptOf, IsReadBefore, AreRowsFine, ArePartsFine, AreAllApart, IsHeldApartAt, IsSetupGiven, IsTextFine};

use crate::centre::Centre;
use crate::conditions::{are_incidents, are_rows, is_head};
use crate::holding::lapse_by;
use accounts::Setup;
use arc_data::{Incident, Memory, SetupFault};
use known_accounts::{AccountRows, Row, SupervisedAccounts, WatchedSetup};
use open_incidents::QueuedTable;
use open_incidents::standing::holder_at;
use std::alloc::Global;
use summary_codec::{Head, ReadRow, ReadSummary, summary_read};

/// The centre of a summary in a version, and its generation. None exactly where the bytes are no spelling of one in that version. The
/// centre stands for the history of no entries over that summary. The error is want of memory.
pub fn decode_summary(
    alloc: Global,
    version: u8,
    bytes: &[u8],
) -> Result<Option<(Centre, u64)>, Memory>
    requires version { IsVersion version }
    ensures { IfOk result (λ found. MatchOption found (IsNoSpelling version bytes.now) (λ x. IsDecoded version bytes.now x.0 x.1)) }
{
    let read = match summary_read(alloc, version, bytes) {
        Ok(Some(read)) => read,
        Ok(None) => return Ok(None),
        Err(Memory) => return Err(Memory),
    };
    let generation = read.head.generation;
    match centre_of(alloc, version, read) {
        Ok(Some(centre)) => Ok(Some((centre, generation))),
        Ok(None) => Ok(None),
        Err(Memory) => Err(Memory),
    }
}

// The centre that keeps what was read. None where that is not what a summary has to be.
fn centre_of(alloc: Global, version: u8, read: ReadSummary<'_>) -> Result<Option<Centre>, Memory>
    requires fields { HasFields read.head.generation (summary_of_read read) }
    requires names { AreNamedIn version read.incidents.items }
    ensures { IfOk result (λ found. MatchOption found (IsNoSummary version read.entry) (IsKeptOf version read.entry)) }
{
    let (head, rows, incidents) = read.parts();
    if !are_parts(version, &head, &rows, &incidents) {
        return Ok(None);
    }
    let Some(accounts) = accounts_of(alloc, &head, rows)? else {
        return Ok(None);
    };
    let lapse = lapse_by(&accounts);
    let Some(queued) = table_of(alloc, head.opened, incidents, head.last, lapse)? else {
        return Ok(None);
    };
    Ok(Some(Centre {
        entries: head.recorded,
        recorded: head.recorded,
        last: head.last,
        accounts,
        queued,
    }))
}

// Whether each part by itself is such as a summary has.
fn are_parts(version: u8, head: &Head<'_>, rows: &[ReadRow], incidents: &[Incident]) -> bool
    ensures fine { IsTrue result → ArePartsFine version head.now rows.now incidents.now }
    ensures only { ArePartsFine version head.now rows.now incidents.now → IsTrue result }
{
    is_head(version, head) && are_rows(rows, head.last) && are_incidents(incidents, head)
}

// What is known of accounts, with the setup of the text in force. None where the text is no setup.
fn accounts_of(
    alloc: Global,
    head: &Head<'_>,
    rows: Vec<ReadRow>,
) -> Result<Option<SupervisedAccounts>, Memory>
    requires moment { IsMoment head.now.last }
    requires fine { AreRowsFine head.now.last rows.items }
    ensures text { IfOk result (λ found. MatchOption found (IsTextFine head.now → ⊥) (λ a. IsTextFine head.now)) }
    ensures kept { IfOk result (λ found. MatchOption found Unit (λ a. a.text ≡ option_map (λ t. t.now) head.now.text)) }
    ensures start { IfOk result (λ found. MatchOption found Unit (λ a. a.rows.start ≡ head.now.start)) }
    ensures rows { IfOk result (λ found. MatchOption found Unit (λ a. a.rows.rows ≡ map row_of_read rows.items)) }
{
    let Some(watched) = watched_in(alloc, head.text)? else {
        return Ok(None);
    };
    let rows = rows_of(alloc, head.start, rows)?;
    Ok(Some(SupervisedAccounts::of(alloc, watched, rows)))
}

// The setup of a text, where there is one. None where the text is no setup.
fn watched_in(alloc: Global, text: Option<&[u8]>) -> Result<Option<Option<WatchedSetup>>, Memory>
    ensures text { IfOk result (λ found. MatchOption found (IsSetupGiven (option_map (λ t. t.now) text.entry) → ⊥) (λ w. IsSetupGiven (option_map (λ t. t.now) text.entry))) }
    ensures kept { IfOk result (λ found. MatchOption found Unit (λ w. w ≡ option_map (λ t. t.now) text.entry)) }
{
    let Some(text) = text else {
        return Ok(Some(None));
    };
    match Setup::read(alloc, text) {
        Ok(setup) => Ok(Some(Some(WatchedSetup::of(alloc, setup)?))),
        Err(SetupFault::Memory) => Err(Memory),
        Err(_) => Ok(None),
    }
}

// The rows of accounts in order.
fn rows_of(alloc: Global, start: Option<u64>, rows: Vec<ReadRow>) -> Result<AccountRows, Memory>
    requires { EveryTwo IsReadBefore rows.items }
    ensures start { IfOk result (λ kept. kept.start ≡ start) }
    ensures rows { IfOk result (λ kept. kept.rows ≡ map row_of_read rows.items) }
{
    let mut kept = AccountRows::started(alloc, start);
    for row in rows {
        let ReadRow {
            account,
            heard,
            failed,
            opening,
            window,
        } = row;
        let row = Row {
            heard,
            failed,
            opening,
            window,
        };
        kept.put(account, row)?;
    }
    Ok(kept)
}

// The table of incidents whose numbers ascend. None where two are of one account and class, or an operator holds two at the moment.
fn table_of(
    alloc: Global,
    opened: u64,
    incidents: Vec<Incident>,
    at: u64,
    lapse: Option<u64>,
) -> Result<Option<QueuedTable>, Memory>
    requires few { opened ≤ 2 ^ 62 }
    requires numbers { Ascends 0 incidents.items opened }
    ensures apart { IfOk result (λ found. MatchOption found (AreAllApart lapse at incidents.items → ⊥) (λ queued. AreAllApart lapse at incidents.items)) }
    ensures opened { IfOk result (λ found. MatchOption found Unit (λ queued. queued.opened ≡ opened)) }
    ensures incidents { IfOk result (λ found. MatchOption found Unit (λ queued. queued.incidents ≡ incidents.items)) }
{
    let mut queued = QueuedTable::opened_at(alloc, opened);
    queued.reserve(incidents.len())?;
    for incident in incidents {
        if !is_apart(&queued, &incident, at, lapse) {
            return Ok(None);
        }
        queued.put(incident);
    }
    Ok(Some(queued))
}

// Whether none of these is of the account and class of an incident, and its holder at the moment holds none of them then.
fn is_apart(queued: &QueuedTable, i: &Incident, at: u64, lapse: Option<u64>) -> bool
    ensures { IsTrue result ↔ (Every (λ other. IsApart other i.now) queued.now.incidents × Every (λ other. IsHeldApartAt lapse at other i.now) queued.now.incidents) }
{
    if queued.table().find(&i.account, i.class).is_some() {
        return false;
    }
    match holder_at(i, at, lapse) {
        Some(operator) => queued.held_by(&operator, at, lapse).is_none(),
        None => true,
    }
}
