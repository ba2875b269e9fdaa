// What a series records, and what becomes of it.
ghost use Rattle.std.specs.Prelude.{◌≡◌, ◌==◌, false, if◌then◌else◌};
ghost use Rattle.std.specs.Option.{option_or};
ghost use Rattle.alarm_rules.specs.SetupLines.{after};
ghost use Rattle.desk_screen.specs.Series.{act_in, act_of, begun_by, broken_off, call_of, counted, first_in, heard_in, is_list, is_own};
ghost use Rattle.desk_screen.specs.Series.{keeps, kind_of, leads_on, next_in, outcome_in, records, shows, stopped};

use crate::own::{Due, Own};
use crate::owning::{own_number, same_number};
use crate::series::{Kind, Series};
use arc_data::{Outcome, Step};
use desk_said::Said;
use desk_wire::Command;

fn kind_of(key: u8) -> Option<Kind>
    ensures { result ≡ kind_of key }
{
    match key {
        b'D' => Some(Kind::Tasks),
        b'A' => Some(Kind::Unanswered),
        b'u' => Some(Kind::Reaching(1)),
        b'i' => Some(Kind::Reaching(2)),
        b'o' => Some(Kind::Reaching(3)),
        b'p' => Some(Kind::Reaching(4)),
        _ => None,
    }
}

fn call_of(reached: u8, number: u8) -> Option<Outcome>
    ensures { result ≡ call_of reached number }
{
    if number < reached {
        Some(Outcome::NoAnswer)
    } else if number == reached {
        Some(Outcome::Reached)
    } else {
        None
    }
}

// What a series records of a step.
fn outcome_in(kind: Kind, step: Step) -> Option<Outcome>
    ensures { result ≡ outcome_in kind step }
{
    match (kind, step) {
        (Kind::Tasks, Step::Premises | Step::Holder(_)) => None,
        (Kind::Tasks, _) => Some(Outcome::Done),
        (Kind::Unanswered, Step::Holder(_)) => Some(Outcome::NoAnswer),
        (Kind::Reaching(reached), Step::Holder(number)) => call_of(reached, number),
        (Kind::Unanswered | Kind::Reaching(_), _) => None,
    }
}

fn act_in(number: u64, kind: Kind, due: Due) -> Option<Command>
    ensures { result ≡ act_in number kind due }
{
    let Due::Ahead(step) = due else {
        return None;
    };
    match outcome_in(kind, step) {
        Some(outcome) => Some(Command::Act {
            number,
            step,
            outcome,
        }),
        None => None,
    }
}

fn first_in(own: &Option<Own>, kind: Kind) -> Option<Command>
    ensures { result ≡ first_in own.now kind }
{
    match own {
        Some(own) => act_in(own.number, kind, own.due),
        None => None,
    }
}

/// The first command of a series that a key begins.
pub(crate) fn first_by(own: &Option<Own>, key: u8) -> Option<Command>
    ensures { result ≡ after (kind_of key) (first_in own.now) }
{
    match kind_of(key) {
        Some(kind) => first_in(own, kind),
        None => None,
    }
}

fn act_of(number: u64, kind: Kind, own: &Option<Own>) -> Option<Command>
    ensures { result ≡ act_of number kind own.now }
{
    match own {
        Some(own) if own.number == number => act_in(number, kind, own.due),
        _ => None,
    }
}

fn shows(said: &Said, number: u64) -> bool
    ensures { result ≡ shows said.now number }
{
    match said {
        Said::Shown(view) => view.number == number,
        _ => false,
    }
}

fn records(said: &Said, number: u64) -> bool
    ensures { result ≡ records said.now number }
{
    match said {
        Said::Recorded {
            number: incident,
            ..
        } => *incident == number,
        _ => false,
    }
}

fn is_list(said: &Said) -> bool
    ensures { result ≡ is_list said.now }
{
    matches!(said, Said::Listed { .. })
}

/// The next command of a series that goes on.
pub(crate) fn next_in(said: &Said, own: &Option<Own>, series: &Option<Series>) -> Option<Command>
    ensures { result ≡ next_in said.now own.now series.now }
{
    match series {
        Some(series) if series.is_on && shows(said, series.number) => {
            act_of(series.number, series.kind, own)
        }
        _ => None,
    }
}

fn leads_on(asked: &Option<Command>) -> bool
    ensures { result ≡ leads_on asked.now }
{
    match asked {
        Some(Command::Act { outcome, .. }) => match outcome {
            Outcome::Reached => false,
            Outcome::NoAnswer | Outcome::Done => true,
        },
        _ => false,
    }
}

// Whether a series of this incident goes on behind an answer.
fn keeps(
    said: &Said,
    way: &Option<Command>,
    asked: &Option<Command>,
    wish: &Option<Command>,
    number: u64,
) -> bool
    ensures { result ≡ keeps said.now way.now asked.now wish.now number }
{
    match (way, asked) {
        (Some(_), _) => records(said, number),
        (None, Some(_)) => leads_on(asked),
        (None, None) => wish.is_some() && is_list(said),
    }
}

fn is_own(own: &Option<Own>, number: u64) -> bool
    ensures { result ≡ is_own own.now number }
{
    same_number(Some(number), own_number(own))
}

fn counted(said: &Said, way: &Option<Command>, series: &Series) -> u64
    ensures { result ≡ counted said.now way.now series.now }
{
    if way.is_some() && records(said, series.number) {
        series.recorded.saturating_add(1)
    } else {
        series.recorded
    }
}

fn begun_by(kind: Kind, asked: &Option<Command>) -> Option<Series>
    ensures { result ≡ begun_by kind asked.now }
{
    match asked {
        Some(Command::Act { number, .. }) => Some(Series {
            kind,
            number: *number,
            recorded: 0,
            is_on: leads_on(asked),
        }),
        _ => None,
    }
}

fn begun(key: u8, asked: &Option<Command>) -> Option<Series>
    ensures { result ≡ after (kind_of key) (λ kind. begun_by kind asked.now) }
{
    match kind_of(key) {
        Some(kind) => begun_by(kind, asked),
        None => None,
    }
}

fn ended(series: &Series) -> Series
    ensures { result ≡ record { kind = series.now.kind; number = series.now.number; recorded = series.now.recorded; is_on = false } }
{
    Series {
        kind: series.kind,
        number: series.number,
        recorded: series.recorded,
        is_on: false,
    }
}

fn stopped(series: &Option<Series>) -> Option<Series>
    ensures { result ≡ stopped series.now }
{
    match series {
        Some(series) if series.is_on => Some(ended(series)),
        _ => None,
    }
}

/// The series behind a key, which begins one by the command that it asks for, or ends the one before.
pub(crate) fn behind_key(
    key: u8,
    asked: &Option<Command>,
    series: &Option<Series>,
) -> Option<Series>
    ensures { result ≡ option_or (after (kind_of key) (λ kind. begun_by kind asked.now)) (stopped series.now) }
{
    match begun(key, asked) {
        Some(series) => Some(series),
        None => stopped(series),
    }
}

/// The series where a connection begins or ends.
pub(crate) fn broken_off(series: &Option<Series>) -> Option<Series>
    ensures { result ≡ broken_off series.now }
{
    match series {
        Some(series) => Some(ended(series)),
        None => None,
    }
}

/// The series behind an answer: to the operator's command on the way, where one is; behind which this command is asked for, and before
/// which that one waited.
pub(crate) fn heard_in(
    said: &Said,
    way: &Option<Command>,
    asked: &Option<Command>,
    wish: &Option<Command>,
    own: &Option<Own>,
    series: &Option<Series>,
) -> Option<Series>
    ensures { result ≡ heard_in said.now way.now asked.now wish.now own.now series.now }
{
    match series {
        Some(series) => Some(Series {
            kind: series.kind,
            number: series.number,
            recorded: counted(said, way, series),
            is_on: series.is_on
                && (is_own(own, series.number) && keeps(said, way, asked, wish, series.number)),
        }),
        None => None,
    }
}
