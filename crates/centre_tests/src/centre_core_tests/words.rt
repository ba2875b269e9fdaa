// Events and answers in words.
ghost use Rattle.std.specs.Prelude.{◌≡◌, ◌≤◌, true, length};
ghost use Rattle.arc_data.specs.Digits.{is_run, is_capital_hex, is_name};
ghost use Rattle.arc_data.specs.WellFormed.{IsWellFormed};
ghost use Rattle.centre_core.specs.Runs.{IsSubmitted};

use arc_data::{Blob, CloseCode, Event, Outcome, Reply, Step, Token, Txt};
use std::alloc::Global;
use std::process::Abort;
use test_fixtures::messages::{account, burglary, message};

/// The event of a word: `adopt` and the word of a setup; `start`; or what is submitted.
pub(crate) fn event_of(rt: &impl Abort, alloc: Global, word: &str) -> Event
    ensures { IsWellFormed result }
{
    match word {
        "start" => Event::Start,
        "adopt" => adopt(rt, alloc, setup_of(rt, "plain")),
        _ => match word.strip_prefix("adopt ") {
            Some(setup) => adopt(rt, alloc, setup_of(rt, setup)),
            None => submitted_of(rt, alloc, word),
        },
    }
}

/// The text of a setup, whose account 1234 has no interval (`plain`), or one of 60 seconds (`beat`), or is lacking (`other`); one without
/// operators (`one`); one with the account 9999 before it (`two`); and one with a second operator, by which a hold lapses (`lapse`).
pub(crate) fn setup_of(rt: &impl Abort, word: &str) -> &'static [u8]
    ensures { length result.now ≤ 4194304 }
{
    match word {
        "plain" => b"account 1234\noperator ann 1234\n",
        "beat" => b"account 1234 beat 60\noperator ann 1234\n",
        "other" => b"account 5678\noperator ann 1234\n",
        "one" => b"account 1234\n",
        "lapse" => b"account 1234\noperator ann 1234\noperator bob 5678\nlapse 300\n",
        "two" => b"account 9999 beat 60\naccount 1234\noperator ann 1234\n",
        _ => panic!(rt; "no such setup"),
    }
}

/// What is submitted, by a word: a message, an opening or a heartbeat of the account 1234, a message of the account 9999; an order of the
/// operator ann on incident 1; a claim of it by the operator bob; `tick` and `list`.
pub(crate) fn submitted_of(rt: &impl Abort, alloc: Global, word: &str) -> Event
    ensures formed { IsWellFormed result }
    ensures submitted { IsSubmitted result }
{
    match word {
        "opening" => {
            message(alloc, account(), 2, Token::AdmCid, b"1401 00 001").expect(rt, "memory")
        }
        "message other" => burglary(alloc, other(), 1).expect(rt, "memory"),
        "message" => burglary(alloc, account(), 1).expect(rt, "memory"),
        "beat" => Event::Beat { account: account() },
        "tick" => Event::Tick,
        "list" => Event::List,
        _ => order(rt, word),
    }
}

fn order(rt: &impl Abort, word: &str) -> Event
    ensures formed { IsWellFormed result }
    ensures submitted { IsSubmitted result }
{
    let (operator, number) = (operator(), 1);
    match word {
        "next" => Event::Next { operator },
        "claim" => Event::Claim { operator, number },
        "bob" => Event::Claim {
            operator: second(),
            number,
        },
        "note" => Event::Act {
            operator,
            number,
            step: Step::Note,
            outcome: Outcome::Done,
        },
        "release" => Event::Release { operator, number },
        "close" => Event::Close {
            operator,
            number,
            code: CloseCode::Real,
        },
        "show" => Event::Show { number },
        _ => panic!(rt; "no such event"),
    }
}

fn adopt(rt: &impl Abort, alloc: Global, text: &[u8]) -> Event
    requires size { length text.now ≤ 4194304 }
    ensures { IsWellFormed result }
{
    let text = Blob::of(alloc, text).expect(rt, "memory");
    Event::Adopt { text }
}

fn other() -> Txt
    ensures { is_run is_capital_hex 3 16 result ≡ true }
{
    Txt::of(b"9999").unwrap()
}

fn operator() -> Txt
    ensures { is_name result ≡ true }
{
    Txt::of(b"ann").unwrap()
}

fn second() -> Txt
    ensures { is_name result ≡ true }
{
    Txt::of(b"bob").unwrap()
}

/// The answer's name, and of a Tick also how many signals it raised.
pub(crate) fn answer_of(reply: &Reply) -> &'static str {
    match reply {
        Reply::Adopted => "adopted",
        Reply::Started => "started",
        Reply::Taken => "taken",
        Reply::Repeat { .. } => "repeat",
        Reply::Heard => "heard",
        Reply::Raised { count: 0 } => "raised 0",
        Reply::Raised { count: 1 } => "raised 1",
        Reply::Unknown => "unknown",
        _ => answer_to_order(reply),
    }
}

fn answer_to_order(reply: &Reply) -> &'static str {
    match reply {
        Reply::Claimed { .. } => "claimed",
        Reply::Recorded { .. } => "recorded",
        Reply::Released { .. } => "released",
        Reply::Closed { .. } => "closed",
        Reply::NotOpen { .. } => "not open",
        Reply::HeldBy { .. } => "held by another",
        Reply::BusyWith { .. } => "busy",
        Reply::NotYours { .. } => "not yours",
        Reply::Shown(_) => "shown",
        Reply::Listed(_) => "listed",
        _ => "another reply",
    }
}
