// The three rows at the top.
ghost use Rattle.std.specs.Prelude.{◌≡◌, ◌∷◌, [], codes};
ghost use Rattle.desk_wire.specs.Laws.{spelling};
ghost use Rattle.desk_screen.specs.Orders.{typed_of};
ghost use Rattle.screen_page.specs.Prompts.{awaited, awaited_or, closing_row, code_word, confirmed, confirmed_or, is_key, leaves, leaving_row};
ghost use Rattle.screen_page.specs.Prompts.{number_row, outcome, prompt, series_row, status, typed_row, way_text};
ghost use Rattle.screen_page.specs.Texts.{with_texts};

use crate::commands::spelled;
use crate::rows::{answered_row, login_row, status_row, undone_row};
use crate::strip::{Strip, strip_of};
use crate::tone::Tone;
use arc_data::{CloseCode, Txt};
use desk_screen::{Command, Deed, Order, Screen, Series, Session};

/// The first row: the connection, the operator, the desk's silence, how many incidents are open.
pub(crate) fn status(session: &Session, total: u64) -> (Tone, Strip)
    ensures { result ≡ status session.now total }
{
    let strip = status_row(session.connected, &session.user, session.silence, total);
    let tone = if session.connected {
        Tone::Heading
    } else {
        Tone::Grave
    };
    (tone, strip)
}

fn is_key(last: Option<u8>, key: u8) -> bool
    ensures { result ≡ is_key last key }
{
    match last {
        Some(last) => last == key,
        None => false,
    }
}

fn code_word(code: CloseCode) -> &'static [u8]
    ensures { result.now ≡ code_word code }
{
    match code {
        CloseCode::Real => b"REAL",
        CloseCode::False => b"FALSE",
        CloseCode::Test => b"TEST",
    }
}

fn closing_row(number: u64, code: CloseCode) -> Strip
    ensures { result ≡ closing_row number code }
{
    let mut strip = Strip::new();
    strip.put(b"close ");
    strip.put_number(number);
    strip.put(b" as ");
    strip.put(code_word(code));
    strip.put(b"? y closes it, any other key does not");
    strip
}

fn leaving_row() -> Strip
    ensures { result ≡ leaving_row }
{
    strip_of(b"leave? y leaves. What you hold stays yours, until it lapses: release it first")
}

// What a confirming key would do.
fn confirmed(screen: &Screen) -> Option<Strip>
    ensures { result ≡ confirmed screen.now.keyboard.last screen.now.own }
{
    if is_key(screen.keyboard().last, b'q') {
        return Some(leaving_row());
    }
    match (screen.own(), screen.closing()) {
        (Some(own), Some(code)) => Some(closing_row(own.number, code)),
        _ => None,
    }
}

fn unanswered(command: &Command) -> Strip
    ensures { result ≡ with_texts [] (codes "no answer yet: " ∷ spelling command.now ∷ []) }
{
    let mut strip = Strip::new();
    strip.put(b"no answer yet: ");
    strip.put(spelled(command).bytes());
    strip
}

// What waits for an answer, or to be sent.
fn awaited(session: &Session) -> Option<Strip>
    ensures { result ≡ awaited (typed_of session.now.way) session.now.wish }
{
    match (&session.way, &session.wish) {
        (Some(Order::Typed(command)), _) => Some(unanswered(command)),
        (Some(Order::Polled(_)) | None, Some(_)) => Some(strip_of(
            b"your command goes out as soon as the desk answers the screen's own",
        )),
        (Some(Order::Polled(_)) | None, None) => None,
    }
}

fn number_row(typed: &Txt) -> Strip
    ensures { result ≡ number_row typed.now }
{
    let mut strip = Strip::new();
    if !typed.bytes().is_empty() {
        strip.put(b"number ");
        strip.put(typed.bytes());
        strip.put(b": c claims it, s shows it");
    }
    strip
}

// What is typed, or what a key would confirm.
fn typed_row(screen: &Screen) -> (Tone, Strip)
    ensures { result ≡ typed_row screen.now.session.user screen.now.keyboard screen.now.own }
{
    let keyboard = screen.keyboard();
    match (&screen.session().user, confirmed(screen)) {
        (None, _) => (Tone::Heading, login_row(&keyboard.name, &keyboard.typed)),
        (Some(_), Some(strip)) => (Tone::Heading, strip),
        (Some(_), None) => (Tone::Plainly, number_row(&keyboard.typed)),
    }
}

/// The second row: what is typed, what a key would confirm, what is awaited.
pub(crate) fn prompt(screen: &Screen) -> (Tone, Strip)
    ensures { result ≡ prompt screen.now.session screen.now.keyboard screen.now.own }
{
    let session = screen.session();
    if !session.connected {
        let strip = strip_of(b"the screen goes on trying to connect; Ctrl-C leaves");
        return (Tone::Plainly, strip);
    }
    match awaited(session) {
        Some(strip) => (Tone::Plainly, strip),
        None => typed_row(screen),
    }
}

fn way_text(is_on: bool) -> &'static [u8]
    ensures { result.now ≡ way_text is_on }
{
    if is_on {
        b" recorded by one key, goes on: "
    } else {
        b" recorded by one key, ended: "
    }
}

// How far a series has come.
fn series_row(series: &Option<Series>) -> Strip
    ensures { result ≡ series_row series.now }
{
    let mut strip = Strip::new();
    if let Some(series) = series {
        strip.put_number(series.recorded);
        strip.put(way_text(series.is_on));
    }
    strip
}

/// The third row: how far a series has come, and what was not done, or else the last answer.
pub(crate) fn outcome(
    undone: &Option<Command>,
    answered: &Option<Deed>,
    series: &Option<Series>,
) -> (Tone, Strip)
    ensures { result ≡ outcome undone.now answered.now series.now }
{
    let mut strip = series_row(series);
    match (undone, answered) {
        (Some(command), _) => {
            strip.put(undone_row(command).bytes());
            (Tone::Grave, strip)
        }
        (None, Some(deed)) => {
            strip.put(answered_row(deed).bytes());
            (Tone::Plainly, strip)
        }
        (None, None) => (Tone::Plainly, strip),
    }
}

/// Whether a key leaves the screen: `y` behind a `q` at work, or Ctrl-C or Ctrl-D at any time.
#[tactic(auto, unfolding(crate::specs::Prompts::leaves))]
pub fn leaves(screen: &Screen, key: u8) -> bool
    ensures { result ≡ leaves screen.now.session.user screen.now.keyboard.last key }
{
    if key == 3 || key == 4 {
        return true;
    }
    screen.session().user.is_some() && key == b'y' && is_key(screen.keyboard().last, b'q')
}
