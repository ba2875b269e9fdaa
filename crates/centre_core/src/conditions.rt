// What has to hold of the parts of a summary besides the ranges of their fields.
ghost use Rattle.std.specs.Prelude.{◌≡◌, ◌≤◌, ◌<◌, ◌↔◌, ◌^◌, ◌+◌, Some, IsTrue, slice_get, length, reverse, take, true};
ghost use Rattle.std.specs.List.{list_any};
ghost use Rattle.arc_data.specs.Incidents.{Ascends};
ghost use Rattle.arc_data.specs.Steps.{same_step};
ghost use Rattle.alarm_rules.specs.Signals.{has_signals};
ghost use Rattle.summary_rules.specs.Fields.{Given};
ghost use Rattle.summary_rules.specs.Lists.{Every, EveryTwo};
ghost use Rattle.summary_rules.specs.Conditions.{AreMessages, HasSignals, IsNoOlder, AreSteps, AreActsOf};
ghost use Rattle.centre_core.specs.Decoding.{IsHeadFine, IsRowFine, IsReadBefore, AreRowsFine, IsIncidentFine, AreIncidentsFine};

use arc_data::{Acted, Incident, Step};
use content_signals::signals;
use known_accounts::{Seen, Window};
use std::cmp::Ordering;
use summary_codec::{Head, ReadRow};

/// Whether the moments and counts of a head are those of a summary in a version.
pub(crate) fn is_head(version: u8, head: &Head<'_>) -> bool
    ensures fine { IsTrue result → IsHeadFine version head.now }
    ensures only { IsHeadFine version head.now → IsTrue result }
{
    head.last < 253_402_300_800
        && is_by(head.start, head.last)
        && head.recorded <= 1 << 48
        && head.generation >= 1
        && head.generation <= head.recorded + u64::from(version)
        && head.opened <= 4000 * head.recorded
}

// Whether a moment, where there is one, is no later than the last one.
fn is_by(moment: Option<u64>, last: u64) -> bool
    ensures { IsTrue result ↔ Given (λ at. at ≤ last) moment }
{
    match moment {
        Some(at) => at <= last,
        None => true,
    }
}

// Rows.

/// Whether rows are those of a summary, in order.
pub(crate) fn are_rows(rows: &[ReadRow], last: u64) -> bool
    ensures fine { IsTrue result → AreRowsFine last rows.now }
    ensures only { AreRowsFine last rows.now → IsTrue result }
{
    for i in 0..rows.len() {
        if !is_row(row_at(rows, i), last) {
            return false;
        }
        if !is_behind(rows, i) {
            return false;
        }
    }
    true
}

fn row_at(rows: &[ReadRow], i: usize) -> &ReadRow
    requires { i < length rows.now }
    ensures { slice_get rows.now i ≡ Some result.now }
{
    &rows[i]
}

// Whether the account of a row stands behind those of the rows before it, which are in order.
fn is_behind(rows: &[ReadRow], i: usize) -> bool
    requires within { i < length rows.now }
    requires order { EveryTwo IsReadBefore (take i rows.now) }
    ensures fine { IsTrue result → EveryTwo IsReadBefore (take (i + 1) rows.now) }
    ensures only { EveryTwo IsReadBefore (take (i + 1) rows.now) → IsTrue result }
{
    i == 0 || is_before(row_at(rows, i - 1), row_at(rows, i))
}

fn is_before(other: &ReadRow, row: &ReadRow) -> bool
    ensures { IsTrue result ↔ IsReadBefore other.now row.now }
{
    match other.account.bytes().cmp(row.account.bytes()) {
        Ordering::Less => true,
        Ordering::Equal | Ordering::Greater => false,
    }
}

// Whether no moment of a row is later, and its messages are those of a summary.
fn is_row(row: &ReadRow, last: u64) -> bool
    ensures fine { IsTrue result → IsRowFine last row.now }
    ensures only { IsRowFine last row.now → IsTrue result }
{
    let opening = match row.opening {
        Some(opened) => Some(opened.at),
        None => None,
    };
    is_by(row.heard, last)
        && is_by(opening, last)
        && are_past(&row.window, last)
        && do_not_fall(&row.window)
}

// Whether the messages of a window have signals, and none is later.
fn are_past(window: &Window, last: u64) -> bool
    ensures { IsTrue result ↔ Every (λ p. (p.at ≤ last) × HasSignals p) window.now }
{
    for i in 0..window.count() {
        if !is_past(window.at(i), last) {
            return false;
        }
    }
    true
}

fn is_past(seen: &Seen, last: u64) -> bool
    ensures { IsTrue result ↔ ((seen.now.at ≤ last) × HasSignals seen.now) }
{
    seen.at <= last && signals(seen.message.token, seen.message.content.bytes()).is_some()
}

// Whether the moments of a window do not fall.
fn do_not_fall(window: &Window) -> bool
    ensures { IsTrue result ↔ EveryTwo IsNoOlder window.now }
{
    for i in 1..window.count() {
        if window.at(i).at < window.at(i - 1).at {
            return false;
        }
    }
    true
}

// Incidents.

/// Whether incidents are each one of a summary, and their numbers ascend.
pub(crate) fn are_incidents(incidents: &[Incident], head: &Head<'_>) -> bool
    requires { head.now.recorded ≤ 2 ^ 48 }
    ensures fine { IsTrue result → AreIncidentsFine head.now incidents.now }
    ensures only { AreIncidentsFine head.now incidents.now → IsTrue result }
{
    let mut before = 0;
    for i in 0..incidents.len() {
        let incident = incident_at(incidents, i);
        if incident.number <= before {
            return false;
        }
        if !is_incident(incident, head) {
            return false;
        }
        before = incident.number;
    }
    before <= head.opened
}

fn incident_at(incidents: &[Incident], i: usize) -> &Incident
    requires { i < length incidents.now }
    ensures { slice_get incidents.now i ≡ Some result.now }
{
    &incidents[i]
}

// Whether an incident by itself is one of a summary.
fn is_incident(i: &Incident, head: &Head<'_>) -> bool
    requires { head.now.recorded ≤ 2 ^ 48 }
    ensures fine { IsTrue result → IsIncidentFine head.now i.now }
    ensures only { IsIncidentFine head.now i.now → IsTrue result }
{
    i.at <= head.last
        && i.touched <= head.last
        && i.signals >= 1
        && i.signals <= 4000 * head.recorded
        && are_steps(i.steps.items())
        && are_acts(i.steps.items(), i.acts.items(), head.last)
}

// Whether none of the steps stands twice.
fn are_steps(steps: &[Step]) -> bool
    ensures { IsTrue result ↔ AreSteps steps.now }
{
    for i in 0..steps.len() {
        if is_among(step_at(steps, i), &steps[..i]) {
            return false;
        }
    }
    true
}

fn step_at(steps: &[Step], i: usize) -> Step
    requires { i < length steps.now }
    ensures { slice_get steps.now i ≡ Some result }
{
    steps[i]
}

// Whether the acts are each of one of the steps, no two of one step, and none later.
fn are_acts(steps: &[Step], acts: &[Acted], last: u64) -> bool
    ensures { IsTrue result ↔ (AreActsOf steps.now acts.now × Every (λ a. a.at ≤ last) acts.now) }
{
    for i in 0..acts.len() {
        let act = act_at(acts, i);
        if act.at > last {
            return false;
        }
        if !is_among(act.step, steps) {
            return false;
        }
        if is_acted(act.step, &acts[..i]) {
            return false;
        }
    }
    true
}

fn act_at(acts: &[Acted], i: usize) -> Acted
    requires { i < length acts.now }
    ensures { slice_get acts.now i ≡ Some result }
{
    acts[i]
}

fn is_among(step: Step, steps: &[Step]) -> bool
    ensures { result ≡ list_any (same_step step) steps.now }
{
    steps.iter().any(|other| step == *other)
}

fn is_acted(step: Step, acts: &[Acted]) -> bool
    ensures { result ≡ list_any (λ a. same_step step a.step) acts.now }
{
    acts.iter().any(|other| step == other.step)
}
