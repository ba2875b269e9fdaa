// The parts of a summary of either version, read from left to right. A reading is None where the bytes do not begin so.
ghost use Rattle.std.specs.Prelude.{◌≡◌, ◌≤◌, [], List, ℕ, None, Some, length, map, reverse, IfOk, MatchOption};
ghost use Rattle.std.specs.Int.{w32, w64};
ghost use Rattle.std.specs.Option.{option_map};
ghost use Rattle.event_codec.specs.Reading.{number_at, long_at, coded_at, step_of};
ghost use Rattle.summary_rules.specs.Conditions.{name_of_one};
ghost use Rattle.summary_codec.specs.Reading.{few_at, many_at, times_at, option_at, truth_of, opening_at, message_parts_at, past_at, row_at, class_of};
ghost use Rattle.summary_codec.specs.Reading.{text_up_to, line_text_at, holding_at, acted_at, incident_at};
ghost use Rattle.summary_codec.specs.Parts.{row_of_read};
ghost use Rattle.summary_codec.specs.Heads.{IsOpenedBy};

use alarm_rules::is_name;
use arc_data::{
    Acted, Acts, Blob, Class, Incident, Memory, Message, Opened, Step, StepList, Token, Txt,
};
use event_codec::{
    account_at, act_at, byte_at, content_at, line_at, operator_at, piece_at, receiver_at, setup_at,
    step_at, text_at, token_at, u16_at, u64_at, via_of_one,
};
use repeat_window::{Seen, Window};
use std::alloc::Global;

/// The row of an account, as it was read.
#[derive(Drop)]
pub struct ReadRow {
    pub account: Txt,
    pub heard: Option<u64>,
    pub failed: bool,
    pub opening: Option<Opened>,
    pub window: Window,
}

/// A number that may lack.
#[tactic(auto, unfolding(crate::specs::Reading::option_at))]
pub(crate) fn given_at(bytes: &[u8]) -> Option<(Option<u64>, &[u8])>
    ensures { MatchOption result (option_at (number_at w64) bytes.now ≡ None) (λ x. option_at (number_at w64) bytes.now ≡ Some (x.0, x.1.now)) }
{
    match bytes {
        [0, rest @ ..] => Some((None, rest)),
        [1, rest @ ..] => {
            let (number, rest) = u64_at(rest)?;
            Some((Some(number), rest))
        }
        _ => None,
    }
}

/// A setup text that may lack.
#[tactic(auto, unfolding(crate::specs::Reading::option_at))]
pub(crate) fn setup_given_at(bytes: &[u8]) -> Option<(Option<&[u8]>, &[u8])>
    ensures { MatchOption result (option_at (long_at w32 4194304) bytes.now ≡ None) (λ x. option_at (long_at w32 4194304) bytes.now ≡ Some (option_map (λ t. t.now) x.0, x.1.now)) }
{
    match bytes {
        [0, rest @ ..] => Some((None, rest)),
        [1, rest @ ..] => {
            let (text, rest) = setup_at(rest)?;
            Some((Some(text), rest))
        }
        _ => None,
    }
}

fn truth_at(bytes: &[u8]) -> Option<(bool, &[u8])>
    ensures { MatchOption result (coded_at truth_of bytes.now ≡ None) (λ x. coded_at truth_of bytes.now ≡ Some (x.0, x.1.now)) }
{
    match bytes {
        [0, rest @ ..] => Some((false, rest)),
        [1, rest @ ..] => Some((true, rest)),
        _ => None,
    }
}

// Rows.

fn opened_at(bytes: &[u8]) -> Option<(Opened, &[u8])>
    ensures { MatchOption result (opening_at bytes.now ≡ None) (λ x. opening_at bytes.now ≡ Some (x.0, x.1.now)) }
{
    let (at, rest) = u64_at(bytes)?;
    let (late, rest) = truth_at(rest)?;
    Some((Opened { at, late }, rest))
}

#[tactic(auto, unfolding(crate::specs::Reading::option_at))]
fn opening_given_at(bytes: &[u8]) -> Option<(Option<Opened>, &[u8])>
    ensures { MatchOption result (option_at opening_at bytes.now ≡ None) (λ x. option_at opening_at bytes.now ≡ Some (x.0, x.1.now)) }
{
    match bytes {
        [0, rest @ ..] => Some((None, rest)),
        [1, rest @ ..] => {
            let (opened, rest) = opened_at(rest)?;
            Some((Some(opened), rest))
        }
        _ => None,
    }
}

// The parts of a message behind its account, and the bytes behind it.
#[derive(Clone, Copy)]
struct MessageParts<'a> {
    receiver: Option<Txt>,
    line: Txt,
    seq: u16,
    token: Token,
    content: &'a [u8],
    rest: &'a [u8],
}

#[tactic(auto, unfolding(crate::specs::Reading::message_parts_at))]
fn message_parts(bytes: &[u8]) -> Option<MessageParts<'_>>
    ensures { MatchOption result (message_parts_at bytes.now ≡ None)
        (λ m. message_parts_at bytes.now ≡ Some ((m.receiver, (m.line, (m.seq, (m.token, m.content.now)))), m.rest.now)) }
{
    let Some((receiver, rest)) = receiver_at(bytes) else {
        return None;
    };
    let Some((line, rest)) = line_at(rest) else {
        return None;
    };
    let Some((seq, rest)) = u16_at(9999, rest) else {
        return None;
    };
    let Some((token, rest)) = token_at(rest) else {
        return None;
    };
    let Some((content, rest)) = content_at(rest) else {
        return None;
    };
    Some(MessageParts {
        receiver,
        line,
        seq,
        token,
        content,
        rest,
    })
}

// A message of an account, with its moment.
fn seen_at<'a>(
    alloc: Global,
    account: &Txt,
    bytes: &'a [u8],
) -> Result<Option<(Seen, &'a [u8])>, Memory>
    ensures { IfOk result (λ found. MatchOption found (past_at account.now bytes.now ≡ None) (λ x. past_at account.now bytes.now ≡ Some (x.0, x.1.now))) }
{
    let Some((at, rest)) = u64_at(bytes) else {
        return Ok(None);
    };
    let Some(parts) = message_parts(rest) else {
        return Ok(None);
    };
    let content = Blob::of(alloc, parts.content)?;
    let message = Message {
        account: *account,
        receiver: parts.receiver,
        line: parts.line,
        seq: parts.seq,
        token: parts.token,
        content,
    };
    Ok(Some((Seen { message, at }, parts.rest)))
}

// So many messages of an account, the oldest first.
fn messages_at<'a>(
    alloc: Global,
    account: &Txt,
    count: u8,
    bytes: &'a [u8],
) -> Result<Option<(Window, &'a [u8])>, Memory>
    requires { count ≤ 32 }
    ensures { IfOk result (λ found. MatchOption found (times_at (past_at account.now) count bytes.now ≡ None)
        (λ x. times_at (past_at account.now) count bytes.now ≡ Some (reverse x.0, x.1.now))) }
{
    let mut window = Window::new(alloc)?;
    let mut rest = bytes;
    for _ in 0..count {
        let (seen, behind) = match seen_at(alloc, account, rest) {
            Ok(Some(found)) => found,
            Ok(None) => return Ok(None),
            Err(Memory) => return Err(Memory),
        };
        window.push(seen);
        rest = behind;
    }
    Ok(Some((window, rest)))
}

// A count of at most 32, and so many messages of an account.
#[tactic(auto, unfolding(crate::specs::Reading::few_at))]
fn window_at<'a>(
    alloc: Global,
    account: &Txt,
    bytes: &'a [u8],
) -> Result<Option<(Window, &'a [u8])>, Memory>
    ensures { IfOk result (λ found. MatchOption found (few_at 32 (past_at account.now) bytes.now ≡ None)
        (λ x. few_at 32 (past_at account.now) bytes.now ≡ Some (reverse x.0, x.1.now))) }
{
    let Some((count, rest)) = byte_at(bytes) else {
        return Ok(None);
    };
    if count > 32 {
        return Ok(None);
    }
    messages_at(alloc, account, count, rest)
}

#[tactic(auto, unfolding(crate::specs::Reading::row_at))]
fn row_read_at(alloc: Global, bytes: &[u8]) -> Result<Option<(ReadRow, &[u8])>, Memory>
    ensures { IfOk result (λ found. MatchOption found (row_at bytes.now ≡ None) (λ x. row_at bytes.now ≡ Some (row_of_read x.0, x.1.now))) }
{
    let Some((account, rest)) = account_at(bytes) else {
        return Ok(None);
    };
    let Some((heard, rest)) = given_at(rest) else {
        return Ok(None);
    };
    let Some((failed, rest)) = truth_at(rest) else {
        return Ok(None);
    };
    let Some((opening, rest)) = opening_given_at(rest) else {
        return Ok(None);
    };
    let (window, rest) = match window_at(alloc, &account, rest) {
        Ok(Some(found)) => found,
        Ok(None) => return Ok(None),
        Err(Memory) => return Err(Memory),
    };
    let row = ReadRow {
        account,
        heard,
        failed,
        opening,
        window,
    };
    Ok(Some((row, rest)))
}

/// A count in four bytes, and so many rows. The error is want of memory.
#[tactic(auto, unfolding(crate::specs::Reading::many_at))]
pub fn rows_at(alloc: Global, bytes: &[u8]) -> Result<Option<(Vec<ReadRow>, &[u8])>, Memory>
    ensures { IfOk result (λ found. MatchOption found (many_at row_at bytes.now ≡ None) (λ x. many_at row_at bytes.now ≡ Some (map row_of_read x.0.items, x.1.now))) }
{
    let Some((count, mut rest)) = count_at(bytes) else {
        return Ok(None);
    };
    let mut rows = Vec::new(alloc);
    for _ in 0..count {
        let (row, behind) = match row_read_at(alloc, rest) {
            Ok(Some(found)) => found,
            Ok(None) => return Ok(None),
            Err(Memory) => return Err(Memory),
        };
        let Ok(()) = rows.push(row) else {
            return Err(Memory);
        };
        rest = behind;
    }
    Ok(Some((rows, rest)))
}

// A count in four bytes.
fn count_at(bytes: &[u8]) -> Option<(u32, &[u8])>
    ensures { MatchOption result (number_at w32 bytes.now ≡ None) (λ x. number_at w32 bytes.now ≡ Some (x.0, x.1.now)) }
{
    if bytes.len() < 4 {
        return None;
    }
    let (front, rest) = bytes.split_at(4);
    let number = u32::from_be_bytes([front[0], front[1], front[2], front[3]]);
    Some((number, rest))
}

// Incidents.

fn class_at(bytes: &[u8]) -> Option<(Class, &[u8])>
    ensures { MatchOption result (coded_at class_of bytes.now ≡ None) (λ x. coded_at class_of bytes.now ≡ Some (x.0, x.1.now)) }
{
    let (byte, rest) = byte_at(bytes)?;
    let class = class_of_byte(byte)?;
    Some((class, rest))
}

fn class_of_byte(byte: u8) -> Option<Class>
    ensures { result ≡ class_of byte }
{
    match byte {
        1 => Some(Class::Fire),
        2 => Some(Class::Medical),
        3 => Some(Class::Panic),
        4 => Some(Class::Gas),
        5 => Some(Class::Burglary),
        6 => Some(Class::Tamper),
        7 => Some(Class::Environment),
        8 => Some(Class::CommFail),
        9 => Some(Class::Trouble),
        10 => Some(Class::Irregular),
        11 => Some(Class::LateClose),
        12 => Some(Class::Unlisted),
        _ => None,
    }
}

// A text of at most so many bytes: 32 of a code, 16 of the name of a line.
#[tactic(auto, unfolding(crate::specs::Reading::text_up_to))]
fn text_up_to(most: u8, bytes: &[u8]) -> Option<(Txt, &[u8])>
    requires { most ≤ 32 }
    ensures { MatchOption result (text_up_to most bytes.now ≡ None) (λ x. text_up_to most bytes.now ≡ Some (x.0, x.1.now)) }
{
    let (count, rest) = byte_at(bytes)?;
    if count > most {
        return None;
    }
    let (text, rest) = piece_at(usize::from(count), rest)?;
    let text = Txt::of(text)?;
    Some((text, rest))
}

// The line by which the signal of this code came. Version 1 leaves it out.
#[tactic(auto, unfolding(crate::specs::Reading::line_text_at))]
fn via_at<'a>(version: u8, code: &Txt, bytes: &'a [u8]) -> Option<(Txt, &'a [u8])>
    ensures { MatchOption result (line_text_at version code.now bytes.now ≡ None) (λ x. line_text_at version code.now bytes.now ≡ Some (x.0, x.1.now)) }
{
    if version == 1 {
        return Some((name_of_one(code), bytes));
    }
    text_up_to(16, bytes)
}

// The line that version 1 gives a signal of this code: none where no panel sent it.
fn name_of_one(code: &Txt) -> Txt
    ensures { result ≡ name_of_one code.now }
{
    if code.bytes() == b"-".as_slice() {
        Txt::empty()
    } else {
        via_of_one()
    }
}

// The claimer of an incident, and since when it was not touched.
#[tactic(auto, unfolding(crate::specs::Reading::holding_at))]
fn holder_at(bytes: &[u8]) -> Option<(Option<Txt>, u64, &[u8])>
    ensures { MatchOption result (holding_at bytes.now ≡ None) (λ x. holding_at bytes.now ≡ Some ((x.0, x.1), x.2.now)) }
{
    let Some((name, rest)) = text_at(bytes) else {
        return None;
    };
    if name.is_empty() {
        return Some((None, 0, rest));
    }
    if !is_name(name) {
        return None;
    }
    let Some(operator) = Txt::of(name) else {
        return None;
    };
    let Some((touched, rest)) = u64_at(rest) else {
        return None;
    };
    Some((Some(operator), touched, rest))
}

#[tactic(auto, unfolding(crate::specs::Reading::few_at))]
fn steps_at(bytes: &[u8]) -> Option<(StepList, &[u8])>
    ensures { MatchOption result (few_at 10 (coded_at step_of) bytes.now ≡ None) (λ x. few_at 10 (coded_at step_of) bytes.now ≡ Some (x.0, x.1.now)) }
{
    let (count, mut rest) = byte_at(bytes)?;
    if count > 10 {
        return None;
    }
    let mut steps = StepList::new();
    for _ in 0..count {
        let Some((step, behind)) = step_at(rest) else {
            return None;
        };
        let _ = steps.push(step);
        rest = behind;
    }
    Some((steps, rest))
}

#[tactic(auto, unfolding(crate::specs::Reading::acted_at))]
fn acted_read_at(bytes: &[u8]) -> Option<(Acted, &[u8])>
    ensures { MatchOption result (acted_at bytes.now ≡ None) (λ x. acted_at bytes.now ≡ Some (x.0, x.1.now)) }
{
    let Some((step, outcome, rest)) = act_at(bytes) else {
        return None;
    };
    let Some((at, rest)) = u64_at(rest) else {
        return None;
    };
    let Some((operator, rest)) = operator_at(rest) else {
        return None;
    };
    let acted = Acted {
        step,
        outcome,
        at,
        operator,
    };
    Some((acted, rest))
}

#[tactic(auto, unfolding(crate::specs::Reading::few_at))]
fn acts_at(bytes: &[u8]) -> Option<(Acts, &[u8])>
    ensures { MatchOption result (few_at 10 acted_at bytes.now ≡ None) (λ x. few_at 10 acted_at bytes.now ≡ Some (x.0, x.1.now)) }
{
    let (count, mut rest) = byte_at(bytes)?;
    if count > 10 {
        return None;
    }
    let mut acts = Acts::new();
    for _ in 0..count {
        let Some((acted, behind)) = acted_read_at(rest) else {
            return None;
        };
        let _ = acts.push(acted);
        rest = behind;
    }
    Some((acts, rest))
}

// What an incident was opened by, and the bytes behind it.
#[derive(Clone, Copy)]
pub(crate) struct OpenedBy<'a> {
    pub number: u64,
    pub account: Txt,
    pub class: Class,
    pub code: Txt,
    pub via: Txt,
    pub at: u64,
    pub rest: &'a [u8],
}

#[tactic(auto, unfolding(crate::specs::Reading::incident_at))]
fn opened_by_at(version: u8, bytes: &[u8]) -> Option<OpenedBy<'_>>
    ensures { MatchOption result (incident_at version bytes.now ≡ None) (IsOpenedBy version bytes.now) }
{
    let Some((number, rest)) = u64_at(bytes) else {
        return None;
    };
    let Some((account, rest)) = account_at(rest) else {
        return None;
    };
    let Some((class, rest)) = class_at(rest) else {
        return None;
    };
    let Some((code, rest)) = text_up_to(32, rest) else {
        return None;
    };
    let Some((via, rest)) = via_at(version, &code, rest) else {
        return None;
    };
    let Some((at, rest)) = u64_at(rest) else {
        return None;
    };
    Some(OpenedBy {
        number,
        account,
        class,
        code,
        via,
        at,
        rest,
    })
}

fn incident_read_at(version: u8, bytes: &[u8]) -> Option<(Incident, &[u8])>
    ensures { MatchOption result (incident_at version bytes.now ≡ None) (λ x. incident_at version bytes.now ≡ Some (x.0, x.1.now)) }
{
    let Some(by) = opened_by_at(version, bytes) else {
        return None;
    };
    let Some((signals, rest)) = u64_at(by.rest) else {
        return None;
    };
    let Some((restored, rest)) = truth_at(rest) else {
        return None;
    };
    let Some((holder, touched, rest)) = holder_at(rest) else {
        return None;
    };
    let Some((steps, rest)) = steps_at(rest) else {
        return None;
    };
    let Some((acts, rest)) = acts_at(rest) else {
        return None;
    };
    let incident = Incident {
        number: by.number,
        account: by.account,
        class: by.class,
        code: by.code,
        at: by.at,
        signals,
        restored,
        holder,
        touched,
        steps,
        acts,
        via: by.via,
    };
    Some((incident, rest))
}

/// A count in four bytes, and so many incidents. The error is want of memory.
#[tactic(auto, unfolding(crate::specs::Reading::many_at))]
pub fn incidents_at(
    alloc: Global,
    version: u8,
    bytes: &[u8],
) -> Result<Option<(Vec<Incident>, &[u8])>, Memory>
    ensures { IfOk result (λ found. MatchOption found (many_at (incident_at version) bytes.now ≡ None) (λ x. many_at (incident_at version) bytes.now ≡ Some (x.0.items, x.1.now))) }
{
    let Some((count, mut rest)) = count_at(bytes) else {
        return Ok(None);
    };
    let mut incidents = Vec::new(alloc);
    for _ in 0..count {
        let Some((incident, behind)) = incident_read_at(version, rest) else {
            return Ok(None);
        };
        let Ok(()) = incidents.push(incident) else {
            return Err(Memory);
        };
        rest = behind;
    }
    Ok(Some((incidents, rest)))
}
