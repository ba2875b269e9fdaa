// Which records a book is asked for.
ghost use Rattle.std.specs.Prelude.{◌≡◌, List, IfSome};
ghost use Rattle.std.specs.List.{find, list_any};
ghost use Rattle.arc_data.specs.Incidents.{has_number};
ghost use Rattle.arc_data.specs.Moments.{IsMoment};
ghost use Rattle.arc_data.specs.declared.incident.Incident.{Incident};
ghost use Rattle.book_lines.specs.Asked.{AreInRange, IsPlace};
ghost use Rattle.book_lines.specs.Choices.{attaches, chosen, decided, has_account, is_asked, is_claimed, is_claimed_of, is_of_account, is_of_incident, is_of_operator, is_raised_of, is_signalled, is_since, is_until};
ghost use Rattle.book_lines.specs.Clocks.{IsNear};

use crate::clock::Clock;
use crate::options::{Options, Place};
use arc_data::{Carried, Event, Incident, Kind, Reply, Txt};
use incidents::Table;

/// Whether a book is asked for a record.
#[derive(Clone, Copy)]
pub enum Verdict {
    /// It is.
    Told,
    /// It is not.
    LeftOut,
    /// It is, where the incident of this number is open behind the record.
    Opens(u64),
}

/// Whether a book is asked for the record of this number, made at a moment: of an event with its reply and the signals that it carries, and
/// by the incidents that were open before it.
pub fn choose(
    options: &Options,
    number: u64,
    at: u64,
    event: &Event,
    reply: &Reply,
    carried: &[Carried],
    table: &Table,
) -> Verdict
    requires range { AreInRange options.now }
    requires moment { IsMoment at }
    ensures { (behind : List Incident) → chosen options.now table.now.incidents behind carried.now number at event.now reply.now ≡ decided result behind }
{
    if !is_asked(options, number, at, event, reply, carried, table) {
        return Verdict::LeftOut;
    }
    match options.incident {
        None => Verdict::Told,
        Some(wanted) => of_incident(wanted, table, carried, event, reply),
    }
}

// Whether all that a book is asked for holds of a record, but for the incident.
fn is_asked(
    options: &Options,
    number: u64,
    at: u64,
    event: &Event,
    reply: &Reply,
    carried: &[Carried],
    table: &Table,
) -> bool
    requires range { AreInRange options.now }
    requires moment { IsMoment at }
    ensures { result ≡ is_asked options.now table.now.incidents carried.now number at event.now reply.now }
{
    is_since(&options.clock, &options.since, number, at)
        && is_until(&options.clock, &options.until, number, at)
        && is_of_account(&options.account, table, carried, event, reply)
        && is_of_operator(&options.operator, event)
}

/// Whether the record is not before the place where the book begins.
pub(crate) fn is_since(clock: &Clock, since: &Option<Place>, number: u64, at: u64) -> bool
    requires near { IsNear clock.now }
    requires place { IfSome since.now IsPlace }
    requires moment { IsMoment at }
    ensures { result ≡ is_since clock.now since.now number at }
{
    match since {
        None => true,
        Some(Place::Number(first)) => *first <= number,
        Some(Place::Moment(first)) => clock.reaches(*first, at),
    }
}

/// Whether the record is not behind the place where the book ends.
pub(crate) fn is_until(clock: &Clock, until: &Option<Place>, number: u64, at: u64) -> bool
    requires near { IsNear clock.now }
    requires place { IfSome until.now IsPlace }
    requires moment { IsMoment at }
    ensures { result ≡ is_until clock.now until.now number at }
{
    match until {
        None => true,
        Some(Place::Number(last)) => number <= *last,
        Some(Place::Moment(last)) => clock.within(*last, at),
    }
}

// Whether the record is one of the account.
fn is_of_account(
    account: &Option<Txt>,
    table: &Table,
    carried: &[Carried],
    event: &Event,
    reply: &Reply,
) -> bool
    ensures { result ≡ is_of_account account.now table.now.incidents carried.now event.now reply.now }
{
    let Some(account) = account else {
        return true;
    };
    match event {
        Event::Message { message, .. } => message.account == *account,
        Event::Beat { account: of } => *of == *account,
        Event::Tick => is_raised_of(account, carried),
        Event::Next { .. } => is_claimed_of(account, reply),
        Event::Claim { number, .. }
        | Event::Act { number, .. }
        | Event::Release { number, .. }
        | Event::Close { number, .. } => has_account(account, table, *number),
        Event::Adopt { .. } | Event::Start | Event::Show { .. } | Event::List => false,
    }
}

// Whether one of the signals is of the account.
fn is_raised_of(account: &Txt, carried: &[Carried]) -> bool
    ensures { result ≡ list_any (is_raised_of account.now) carried.now }
{
    carried.iter().any(|x| is_carried_of(account, x))
}

// Whether the signal is of the account.
fn is_carried_of(account: &Txt, x: &Carried) -> bool
    ensures { result ≡ is_raised_of account.now x.now }
{
    x.account == *account
}

// Whether the operator got an incident of the account.
fn is_claimed_of(account: &Txt, reply: &Reply) -> bool
    ensures { result ≡ is_claimed_of account.now reply.now }
{
    match reply {
        Reply::Claimed { account: of, .. } => *of == *account,
        _ => false,
    }
}

// Whether the incident of the number is open, and of the account.
fn has_account(account: &Txt, table: &Table, number: u64) -> bool
    ensures { result ≡ has_account account.now (find (has_number number) table.now.incidents) }
{
    match table.get(number) {
        Some(incident) => incident.account == *account,
        None => false,
    }
}

// Whether the record is the operator's.
fn is_of_operator(operator: &Option<Txt>, event: &Event) -> bool
    ensures { result ≡ is_of_operator operator.now event.now }
{
    let Some(name) = operator else {
        return true;
    };
    match event {
        Event::Claim { operator, .. }
        | Event::Next { operator }
        | Event::Act { operator, .. }
        | Event::Release { operator, .. }
        | Event::Close { operator, .. } => *operator == *name,
        Event::Adopt { .. }
        | Event::Start
        | Event::Message { .. }
        | Event::Beat { .. }
        | Event::Tick
        | Event::Show { .. }
        | Event::List => false,
    }
}

// Whether the record is one of the incident of a number.
fn of_incident(
    wanted: u64,
    table: &Table,
    carried: &[Carried],
    event: &Event,
    reply: &Reply,
) -> Verdict
    ensures { (behind : List Incident) → is_of_incident (Some wanted) table.now.incidents behind carried.now event.now reply.now ≡ decided result behind }
{
    match event {
        Event::Message { .. } | Event::Tick => is_signalled(wanted, table, carried),
        Event::Next { .. } => told_if(is_claimed(wanted, reply)),
        Event::Claim { number, .. }
        | Event::Act { number, .. }
        | Event::Release { number, .. }
        | Event::Close { number, .. } => told_if(*number == wanted),
        Event::Adopt { .. }
        | Event::Start
        | Event::Beat { .. }
        | Event::Show { .. }
        | Event::List => Verdict::LeftOut,
    }
}

// The verdict where nothing behind the record counts.
fn told_if(told: bool) -> Verdict
    ensures { (behind : List Incident) → told ≡ decided result behind }
{
    if told {
        Verdict::Told
    } else {
        Verdict::LeftOut
    }
}

// Whether the operator got the incident of the number.
fn is_claimed(wanted: u64, reply: &Reply) -> bool
    ensures { result ≡ is_claimed wanted reply.now }
{
    match reply {
        Reply::Claimed { number, .. } => *number == wanted,
        _ => false,
    }
}

// Whether signals belong to the incident of the number.
fn is_signalled(wanted: u64, table: &Table, carried: &[Carried]) -> Verdict
    ensures { (behind : List Incident) → is_signalled wanted table.now.incidents behind carried.now ≡ decided result behind }
{
    match table.get(wanted) {
        None => Verdict::Opens(wanted),
        Some(incident) => told_if(is_attached(incident, carried)),
    }
}

// Whether one of the signals is attached to the incident, or restores it.
fn is_attached(incident: &Incident, carried: &[Carried]) -> bool
    ensures { result ≡ list_any (attaches incident.now) carried.now }
{
    carried.iter().any(|x| attaches(incident, x))
}

// Whether the signal is attached to the incident, or restores it.
fn attaches(incident: &Incident, x: &Carried) -> bool
    ensures { result ≡ attaches incident.now x.now }
{
    incident.account == x.account
        && incident.class == x.signal.class
        && matches!(x.signal.kind, Kind::New | Kind::Again | Kind::Restore)
}
