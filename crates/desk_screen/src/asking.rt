// Which command a key asks for.
ghost use Rattle.std.specs.Prelude.{◌≡◌, None, if◌then◌else◌};
ghost use Rattle.std.specs.Option.{option_map, option_or};
ghost use Rattle.alarm_rules.specs.SetupLines.{after};
ghost use Rattle.alarm_rules.specs.SetupWords.{is_pin, word_that};
ghost use Rattle.desk_wire.specs.Names.{number_spelled};
ghost use Rattle.desk_wire.specs.declared.command.Command.TheVariants.{Claim, Release, Show};
ghost use Rattle.desk_screen.specs.Asking.{act_at, acted, closed_by, code_of, key_asks, login_key, may_ask, number_meant, outcome_of, work_key};
ghost use Rattle.desk_screen.specs.Owning.{own_number};
ghost use Rattle.desk_screen.specs.Orders.{typed_of};
ghost use Rattle.desk_screen.specs.Series.{first_in, heard_in, kind_of, next_in};
ghost use Rattle.desk_screen.specs.Typing.{is_enter};

use crate::keyboard::Keyboard;
use crate::masking::typed_of;
use crate::own::{Due, Own};
use crate::owning::own_number;
use crate::serial::{first_by, heard_in, next_in};
use crate::series::Series;
use crate::session::Session;
use action_plans::fits;
use alarm_rules::is_pin;
use arc_data::{CloseCode, Outcome, Txt};
use desk_said::{Said, number};
use desk_wire::Command;

/// Whether a key ends a line.
pub(crate) fn is_enter(key: u8) -> bool
    ensures { result ≡ is_enter key }
{
    key == b'\r' || key == b'\n'
}

// Whether a key may ask for a command now.
fn may_ask(session: &Session) -> bool
    ensures { result ≡ may_ask session.now.connected session.now.way session.now.wish }
{
    session.connected && (typed_of(&session.way).is_none() && session.wish.is_none())
}

fn pin(typed: &Txt) -> Option<Txt>
    ensures { result ≡ word_that is_pin typed.now }
{
    if is_pin(typed.bytes()) {
        Some(*typed)
    } else {
        None
    }
}

fn login_key(name: &Option<Txt>, typed: &Txt, key: u8) -> Option<Command>
    ensures { result ≡ login_key name.now typed.now key }
{
    match (name, pin(typed)) {
        (Some(name), Some(pin)) if is_enter(key) => Some(Command::Login { name: *name, pin }),
        _ => None,
    }
}

fn outcome_of(key: u8) -> Option<Outcome>
    ensures { result ≡ outcome_of key }
{
    match key {
        b'r' => Some(Outcome::Reached),
        b'a' => Some(Outcome::NoAnswer),
        b'd' => Some(Outcome::Done),
        _ => None,
    }
}

fn act_at(number: u64, due: Due, outcome: Outcome) -> Option<Command>
    ensures { result ≡ act_at number due outcome }
{
    match due {
        Due::Ahead(step) if fits(step, outcome) => Some(Command::Act {
            number,
            step,
            outcome,
        }),
        _ => None,
    }
}

fn acted(own: &Option<Own>, outcome: Outcome) -> Option<Command>
    ensures { result ≡ acted own.now outcome }
{
    match own {
        Some(own) => act_at(own.number, own.due, outcome),
        None => None,
    }
}

// The outcome of the step that is expected.
fn outcome_key(own: &Option<Own>, key: u8) -> Option<Command>
    ensures { result ≡ after (outcome_of key) (acted own.now) }
{
    match outcome_of(key) {
        Some(outcome) => acted(own, outcome),
        None => None,
    }
}

fn step_key(own: &Option<Own>, key: u8) -> Option<Command>
    ensures { result ≡ option_or (after (outcome_of key) (acted own.now)) (after (kind_of key) (first_in own.now)) }
{
    match outcome_key(own, key) {
        Some(command) => Some(command),
        None => first_by(own, key),
    }
}

// The code of a closing that a key says.
fn code_of(key: u8) -> Option<CloseCode>
    ensures { result ≡ code_of key }
{
    match key {
        b'R' => Some(CloseCode::Real),
        b'F' => Some(CloseCode::False),
        b'T' => Some(CloseCode::Test),
        _ => None,
    }
}

/// The code of a closing that the newest key says.
pub(crate) fn code_said(last: Option<u8>) -> Option<CloseCode>
    ensures { result ≡ after last code_of }
{
    match last {
        Some(key) => code_of(key),
        None => None,
    }
}

fn closed_by(last: Option<u8>, own: &Option<Own>) -> Option<Command>
    ensures { result ≡ closed_by last own.now }
{
    match (own_number(own), code_said(last)) {
        (Some(number), Some(code)) => Some(Command::Close { number, code }),
        _ => None,
    }
}

fn number_meant(typed: &Txt, own: &Option<Own>) -> Option<u64>
    ensures { result ≡ number_meant typed.now own.now }
{
    if typed.bytes().is_empty() {
        own_number(own)
    } else {
        number(typed.bytes())
    }
}

fn claim(typed: &Txt) -> Option<Command>
    ensures { result ≡ option_map Claim (number_spelled typed.now) }
{
    match number(typed.bytes()) {
        Some(number) => Some(Command::Claim { number }),
        None => None,
    }
}

fn show(typed: &Txt, own: &Option<Own>) -> Option<Command>
    ensures { result ≡ option_map Show (number_meant typed.now own.now) }
{
    match number_meant(typed, own) {
        Some(number) => Some(Command::Show { number }),
        None => None,
    }
}

fn release(own: &Option<Own>) -> Option<Command>
    ensures { result ≡ option_map Release (own_number own.now) }
{
    match own_number(own) {
        Some(number) => Some(Command::Release { number }),
        None => None,
    }
}

fn work_key(own: &Option<Own>, last: Option<u8>, typed: &Txt, key: u8) -> Option<Command>
    ensures { result ≡ work_key own.now last typed.now key }
{
    match key {
        b'n' => Some(Command::Next),
        b'c' => claim(typed),
        b's' => show(typed, own),
        b'l' => release(own),
        b'y' => closed_by(last, own),
        _ => step_key(own, key),
    }
}

/// The command that a key asks for, of a screen in this state.
pub(crate) fn key_asks(
    session: &Session,
    own: &Option<Own>,
    keyboard: &Keyboard,
    key: u8,
) -> Option<Command>
    ensures { result ≡ (if may_ask session.now.connected session.now.way session.now.wish then key_asks session.now.user own.now keyboard.now.last keyboard.now.typed keyboard.now.name key else None) }
{
    if !may_ask(session) {
        return None;
    }
    match session.user {
        None => login_key(&keyboard.name, &keyboard.typed, key),
        Some(_) => work_key(own, keyboard.last, &keyboard.typed, key),
    }
}

// The command that a series goes on with behind an answer.
fn series_asks(
    session: &Session,
    said: &Said,
    own: &Option<Own>,
    series: &Option<Series>,
) -> Option<Command>
    ensures { result ≡ (if may_ask session.now.connected session.now.way session.now.wish then next_in said.now own.now series.now else None) }
{
    if !may_ask(session) {
        return None;
    }
    next_in(said, own, series)
}

/// The command that a series goes on with behind an answer, and what becomes of the series, of a screen in this state and the own incident
/// behind that answer.
pub(crate) fn gone_on(
    session: &Session,
    said: &Said,
    own: &Option<Own>,
    series: &Option<Series>,
) -> (Option<Command>, Option<Series>)
    ensures asked { result.0 ≡ (if may_ask session.now.connected session.now.way session.now.wish then next_in said.now own.now series.now else None) }
    ensures series { result.1 ≡ heard_in said.now (typed_of session.now.way) result.0 session.now.wish own.now series.now }
{
    let asked = series_asks(session, said, own, series);
    let way = typed_of(&session.way);
    let series = heard_in(said, &way, &asked, &session.wish, own, series);
    (asked, series)
}
