// The answers to what operators order, and to a question for one incident, as the incidents stand at the moment, where holds lapse after so
// many seconds.
ghost use Rattle.std.specs.Prelude.{◌≡◌};
ghost use Rattle.centre_rules.specs.Desks.{claimed as claimed_one, on_claim, on_next, on_act, on_release, on_close, on_show, view_of};
ghost use Rattle.centre_rules.specs.Standing.{stands_at, standing_of};
ghost use Rattle.open_incidents.specs.Marked.{HaveActRoom};

use crate::queued_table::QueuedTable;
use crate::standing::{holder_at, holds, open_at};
use action_plans::{expected_step, left};
use arc_data::{Acted, Incident, Reply, Txt, View};
use incidents::Table;

/// The answer to a claim: another operator may hold the incident, or this one another incident.
pub fn claim(
    queued: &QueuedTable,
    operator: &Txt,
    number: u64,
    at: u64,
    lapse: Option<u64>,
) -> Reply
    ensures { result ≡ on_claim operator.now number (standing_of lapse at queued.now.incidents) }
{
    let Some(i) = open_at(queued.table(), number, at, lapse) else {
        return Reply::NotOpen { number };
    };
    if let Some(holder) = holder_at(i, at, lapse) {
        if holder != *operator {
            return Reply::HeldBy { operator: holder };
        }
    }
    match queued.held_by(operator, at, lapse) {
        Some(held) => Reply::BusyWith {
            number: held.number,
        },
        None => claimed(i),
    }
}

/// The answer to an operator who asks for the next incident.
pub fn next(queued: &QueuedTable, operator: &Txt, at: u64, lapse: Option<u64>) -> Reply
    ensures { result ≡ on_next operator.now (standing_of lapse at queued.now.incidents) }
{
    if let Some(held) = queued.held_by(operator, at, lapse) {
        return Reply::BusyWith {
            number: held.number,
        };
    }
    match queued.first(at, lapse) {
        Some(i) => claimed(i),
        None => Reply::NoneWaiting,
    }
}

/// The answer to a recorded step, whose moment is that of the act.
pub fn act(table: &Table, acted: Acted, number: u64, lapse: Option<u64>) -> Reply
    requires { HaveActRoom table.now.incidents }
    ensures { result ≡ on_act acted number (standing_of lapse acted.at table.now.incidents) }
{
    let Some(i) = open_at(table, number, acted.at, lapse) else {
        return Reply::NotOpen { number };
    };
    if !holds(i, &acted.operator, acted.at, lapse) {
        return Reply::NotYours { number };
    }
    let Some(step) = expected_step(&i.steps, &i.acts) else {
        return Reply::Expected { step: None };
    };
    if acted.step != step {
        return Reply::Expected { step: Some(step) };
    }
    let mut acts = i.acts.copy();
    let _ = acts.push(acted);
    Reply::Recorded {
        number: i.number,
        left: left(&i.steps, &acts) as u64,
    }
}

/// The answer to a release.
pub fn release(table: &Table, operator: &Txt, number: u64, at: u64, lapse: Option<u64>) -> Reply
    ensures { result ≡ on_release operator.now number (standing_of lapse at table.now.incidents) }
{
    match open_at(table, number, at, lapse) {
        None => Reply::NotOpen { number },
        Some(i) => {
            if holds(i, operator, at, lapse) {
                Reply::Released { number }
            } else {
                Reply::NotYours { number }
            }
        }
    }
}

/// The answer to a closing.
pub fn close(table: &Table, operator: &Txt, number: u64, at: u64, lapse: Option<u64>) -> Reply
    ensures { result ≡ on_close operator.now number (standing_of lapse at table.now.incidents) }
{
    let Some(i) = open_at(table, number, at, lapse) else {
        return Reply::NotOpen { number };
    };
    if !holds(i, operator, at, lapse) {
        return Reply::NotYours { number };
    }
    match expected_step(&i.steps, &i.acts) {
        Some(step) => Reply::Missing { step },
        None => Reply::Closed { number },
    }
}

/// The answer to a question for one incident.
pub fn show(table: &Table, number: u64, at: u64, lapse: Option<u64>) -> Reply
    ensures { result ≡ on_show number (standing_of lapse at table.now.incidents) }
{
    match open_at(table, number, at, lapse) {
        None => Reply::NotOpen { number },
        Some(i) => Reply::Shown(view(i, at, lapse)),
    }
}

/// The incident as it is shown, with its holder at the moment.
pub fn view(i: &Incident, at: u64, lapse: Option<u64>) -> View
    ensures { result ≡ view_of (stands_at lapse at i.now) }
{
    View {
        number: i.number,
        class: i.class,
        account: i.account,
        code: i.code,
        at: i.at,
        signals: i.signals,
        restored: i.restored,
        holder: holder_at(i, at, lapse),
        expected: expected_step(&i.steps, &i.acts),
        via: i.via,
    }
}

fn claimed(i: &Incident) -> Reply
    ensures { result ≡ claimed_one i.now }
{
    Reply::Claimed {
        number: i.number,
        class: i.class,
        account: i.account,
    }
}
