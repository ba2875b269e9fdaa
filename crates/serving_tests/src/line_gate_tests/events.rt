// What eight callers submit: each has an account and an operator of its own, by its place.
ghost use Rattle.std.specs.Prelude.{◌≡◌, ◌≤◌, true, IfOk};
ghost use Rattle.arc_data.specs.Digits.{is_run, is_capital_hex, is_name};
ghost use Rattle.arc_data.specs.WellFormed.{IsWellFormed};
ghost use Rattle.centre_rules.specs.History.{IsMoment};
ghost use Rattle.centre_core.specs.Runs.{IsSubmitted};
ghost use Rattle.event_codec.specs.Spelling.{IsKept};

use arc_data::{CloseCode, Event, Memory, Outcome, Reply, Step, Txt};
use std::alloc::Global;
use test_fixtures::messages::burglary;
use test_fixtures::moments::BEGIN;

/// Their setup.
pub(super) const SETUP: &[u8] = b"account 1000
account 1001
account 1002
account 1003
account 1004
account 1005
account 1006
account 1007
operator op0 1000
operator op1 1001
operator op2 1002
operator op3 1003
operator op4 1004
operator op5 1005
operator op6 1006
operator op7 1007
";

/// How many events a caller submits in a round: an alarm of its account and the same once more; it claims the most urgent incident that
/// waits, of whatever account, notes it, and closes it.
pub(super) const STEPS: usize = 5;

fn account(place: usize) -> Txt
    ensures { is_run is_capital_hex 3 16 result ≡ true }
{
    let account = match place {
        0 => Txt::of(b"1000"),
        1 => Txt::of(b"1001"),
        2 => Txt::of(b"1002"),
        3 => Txt::of(b"1003"),
        4 => Txt::of(b"1004"),
        5 => Txt::of(b"1005"),
        6 => Txt::of(b"1006"),
        _ => Txt::of(b"1007"),
    };
    account.unwrap()
}

fn operator(place: usize) -> Txt
    ensures { is_name result ≡ true }
{
    let operator = match place {
        0 => Txt::of(b"op0"),
        1 => Txt::of(b"op1"),
        2 => Txt::of(b"op2"),
        3 => Txt::of(b"op3"),
        4 => Txt::of(b"op4"),
        5 => Txt::of(b"op5"),
        6 => Txt::of(b"op6"),
        _ => Txt::of(b"op7"),
    };
    operator.unwrap()
}

/// The event of the caller at this place in a step of a round. The number is that of the incident that it claimed in this round, or 0.
pub(super) fn event(
    alloc: Global,
    place: usize,
    round: u16,
    step: usize,
    number: u64,
) -> Result<Event, Memory>
    requires { round ≤ 9999 }
    ensures { IfOk result (λ e. IsWellFormed e × IsSubmitted e × IsKept e) }
{
    let operator = operator(place);
    match step {
        0 | 1 => burglary(alloc, account(place), round),
        2 => Ok(Event::Next { operator }),
        3 => Ok(Event::Act {
            operator,
            number,
            step: Step::Note,
            outcome: Outcome::Done,
        }),
        _ => Ok(Event::Close {
            operator,
            number,
            code: CloseCode::Real,
        }),
    }
}

/// The clock of a caller in a round. Callers may be far from one another, and still a message is a repeat of the one before it.
pub(super) fn clock(round: u16) -> u64
    ensures { IsMoment result }
{
    BEGIN + round as u64 / 4
}

/// The incident that was claimed, or 0.
pub(super) fn claimed(reply: &Reply) -> u64 {
    match reply {
        Reply::Claimed { number, .. } => *number,
        _ => 0,
    }
}
