// The forms of the words that a run is called with.
ghost use Rattle.std.specs.Prelude.{◌≡◌, ◌≤◌, IfSome};
ghost use Rattle.std.specs.Option.{option_map};
ghost use Rattle.alarm_rules.specs.SetupWords.{number_between};
ghost use Rattle.arc_server.specs.Forms.{form_of, form_named, crew_named, panel_named};
ghost use Rattle.arc_server.specs.WholeRuns.{HasDoors, IsInRange};

use accounts::number_between;
use arc_data::Txt;
use arc_panel::is_panel_account;
use arc_serving::{Crew, Side};

/// What the words ask for.
#[derive(Clone, Copy)]
pub enum Form {
    /// `line` or `desk`: one session of a line, or of a desk, on the port.
    Session(Side),
    /// `script`: the script on the port.
    Script,
    /// `report`: the report of what the journal has.
    Report,
    /// `drill N`: the script of so many messages, over a disk in memory.
    Drill(u32),
    /// `serve LINES DESKS SESSIONS`: so many lines and desks at once, each for so many sessions.
    Serve(Crew),
    /// `panel ACCOUNT`: the lines on the port, played over a panel of this account.
    Panel(Txt),
    /// `feed`: the asks on the port of a centre that follows this one, answered by what the journal has.
    Feed,
    /// `mirror`: the answers on the port of another centre, which the journal follows.
    Mirror,
    /// `udp N`: so many datagrams, each a line by itself.
    Udp(u32),
    /// `gather LINES DESKS SESSIONS`: as `serve`, but that the messages that stand complete in one piece of a line are recorded together.
    Gather(Crew),
}

/// The form of the words. None where they are of none.
pub(crate) fn form_of(words: &[Txt]) -> Option<Form>
    ensures form { result ≡ form_of words.now }
    ensures doors { IfSome result (λ form. HasDoors form 64 16) }
    ensures range { IfSome result IsInRange }
{
    match words {
        [word] => form_named(word),
        [word, messages] if word.bytes() == b"drill".as_slice() => drill_named(messages),
        [word, account] if word.bytes() == b"panel".as_slice() => panel_named(account),
        [word, datagrams] if word.bytes() == b"udp".as_slice() => udp_named(datagrams),
        [word, lines, desks, sessions] if word.bytes() == b"serve".as_slice() => {
            Some(Form::Serve(crew_named(lines, desks, sessions)?))
        }
        [word, lines, desks, sessions] if word.bytes() == b"gather".as_slice() => {
            Some(Form::Gather(crew_named(lines, desks, sessions)?))
        }
        _ => None,
    }
}

// The form of one word.
fn form_named(word: &Txt) -> Option<Form>
    ensures form { result ≡ form_named word.now }
    ensures doors { IfSome result (λ form. HasDoors form 64 16) }
    ensures range { IfSome result IsInRange }
{
    if word.bytes() == b"line".as_slice() {
        Some(Form::Session(Side::Lines))
    } else if word.bytes() == b"desk".as_slice() {
        Some(Form::Session(Side::Desks))
    } else if word.bytes() == b"script".as_slice() {
        Some(Form::Script)
    } else if word.bytes() == b"report".as_slice() {
        Some(Form::Report)
    } else if word.bytes() == b"feed".as_slice() {
        Some(Form::Feed)
    } else if word.bytes() == b"mirror".as_slice() {
        Some(Form::Mirror)
    } else {
        None
    }
}

// The form of the number behind `drill`.
fn drill_named(messages: &Txt) -> Option<Form>
    ensures form { result ≡ option_map Form.Drill (number_between 1 100_000 messages.now) }
    ensures doors { IfSome result (λ form. HasDoors form 64 16) }
    ensures range { IfSome result IsInRange }
{
    let messages = number_between(1, 100_000, messages.bytes())?;
    Some(Form::Drill(messages as u32))
}

// The form of the account behind `panel`.
fn panel_named(account: &Txt) -> Option<Form>
    ensures form { result ≡ panel_named account.now }
    ensures doors { IfSome result (λ form. HasDoors form 64 16) }
    ensures range { IfSome result IsInRange }
{
    if is_panel_account(account.bytes()) {
        Some(Form::Panel(*account))
    } else {
        None
    }
}

// The form of the number behind `udp`.
fn udp_named(datagrams: &Txt) -> Option<Form>
    ensures form { result ≡ option_map Form.Udp (number_between 1 1_000_000 datagrams.now) }
    ensures doors { IfSome result (λ form. HasDoors form 64 16) }
    ensures range { IfSome result IsInRange }
{
    let datagrams = number_between(1, 1_000_000, datagrams.bytes())?;
    Some(Form::Udp(datagrams as u32))
}

// The crew of the three numbers behind `serve` or `gather`.
fn crew_named(lines: &Txt, desks: &Txt, sessions: &Txt) -> Option<Crew>
    ensures crew { result ≡ crew_named lines.now desks.now sessions.now }
    ensures doors { IfSome result (λ crew. (crew.lines ≤ 64) × (crew.desks ≤ 16)) }
{
    let lines = number_between(1, 64, lines.bytes())?;
    let desks = number_between(0, 16, desks.bytes())?;
    let sessions = number_between(1, 1_000_000, sessions.bytes())?;
    Some(Crew {
        lines: lines as usize,
        desks: desks as usize,
        sessions: sessions as u32,
    })
}
