// The event that bytes spell in a version.
ghost use Rattle.std.specs.Prelude.{◌≡◌, ◌≤◌, ◌<◌, ◌^◌, ℕ, List, length, None, Some, IfOk, IfSome, IsSome, IsTrue, MatchOption};
ghost use Rattle.std.specs.Int.{w16, w32, w64};
ghost use Rattle.std.specs.List.{list_all};
ghost use Rattle.arc_data.specs.Digits.{is_run, is_hex, is_capital_hex, is_name};
ghost use Rattle.event_codec.specs.Spelling.{via_of_one, spelling_in, IsVersion, HasSpellingIn};
ghost use Rattle.event_codec.specs.Reading.{byte_at, piece_at, number_at, number_up_to, text_at, short_at, receiver_at, long_at, token_of, step_of, outcome_of, code_of};
ghost use Rattle.event_codec.specs.Reading.{coded_at, account_at, message_at, via_at, sent_at, order_at, outcome_at, other_fields_at, fields_at, event_at, decoded};
ghost use Rattle.arc_data.specs.declared.event.Event.{Event as AnEvent};

use action_plans::fits;
use alarm_rules::{are_hex, is_name};
use arc_data::{Blob, CloseCode, Event, Memory, Message, Outcome, Step, Token, Txt};
use std::alloc::Global;

/// A byte, and those behind it. None where there is none.
pub fn byte_at(bytes: &[u8]) -> Option<(u8, &[u8])>
    ensures { MatchOption result (byte_at bytes.now ≡ None) (λ x. byte_at bytes.now ≡ Some (x.0, x.1.now)) }
{
    match bytes {
        [byte, rest @ ..] => Some((*byte, rest)),
        [] => None,
    }
}

/// So many bytes, and those behind them. None where there are fewer.
pub fn piece_at(count: usize, bytes: &[u8]) -> Option<(&[u8], &[u8])>
    ensures { MatchOption result (piece_at count bytes.now ≡ None) (λ x. piece_at count bytes.now ≡ Some (x.0.now, x.1.now)) }
{
    if bytes.len() < count {
        return None;
    }
    Some(bytes.split_at(count))
}

/// A number of two bytes, at most so much, and the bytes behind it.
#[tactic(auto, unfolding(crate::specs::Reading::number_up_to))]
pub fn u16_at(most: u16, bytes: &[u8]) -> Option<(u16, &[u8])>
    ensures { MatchOption result (number_up_to w16 most bytes.now ≡ None) (λ x. number_up_to w16 most bytes.now ≡ Some (x.0, x.1.now)) }
{
    if bytes.len() < 2 {
        return None;
    }
    let (front, rest) = bytes.split_at(2);
    let number = u16::from_be_bytes([front[0], front[1]]);
    if number <= most {
        Some((number, rest))
    } else {
        None
    }
}

/// A number of four bytes, at most so much, and the bytes behind it.
#[tactic(auto, unfolding(crate::specs::Reading::number_up_to))]
pub fn u32_at(most: u32, bytes: &[u8]) -> Option<(u32, &[u8])>
    ensures { MatchOption result (number_up_to w32 most bytes.now ≡ None) (λ x. number_up_to w32 most bytes.now ≡ Some (x.0, x.1.now)) }
{
    if bytes.len() < 4 {
        return None;
    }
    let (front, rest) = bytes.split_at(4);
    let number = u32::from_be_bytes([front[0], front[1], front[2], front[3]]);
    if number <= most {
        Some((number, rest))
    } else {
        None
    }
}

/// A number of eight bytes, and the bytes behind it.
pub fn u64_at(bytes: &[u8]) -> Option<(u64, &[u8])>
    ensures { MatchOption result (number_at w64 bytes.now ≡ None) (λ x. number_at w64 bytes.now ≡ Some (x.0, x.1.now)) }
{
    if bytes.len() < 8 {
        return None;
    }
    let (front, rest) = bytes.split_at(8);
    let number = u64::from_be_bytes([
        front[0], front[1], front[2], front[3], front[4], front[5], front[6], front[7],
    ]);
    Some((number, rest))
}

// A moment, before the year 10000.
#[tactic(auto, unfolding(crate::specs::Reading::number_up_to))]
fn moment_at(bytes: &[u8]) -> Option<(u64, &[u8])>
    ensures { MatchOption result (number_up_to w64 253_402_300_799 bytes.now ≡ None)
        (λ x. number_up_to w64 253_402_300_799 bytes.now ≡ Some (x.0, x.1.now)) }
{
    let (moment, rest) = u64_at(bytes)?;
    if moment <= 253_402_300_799 {
        Some((moment, rest))
    } else {
        None
    }
}

/// A byte of length and that many bytes, and the bytes behind them.
#[tactic(auto, unfolding(crate::specs::Reading::text_at))]
pub fn text_at(bytes: &[u8]) -> Option<(&[u8], &[u8])>
    ensures { MatchOption result (text_at bytes.now ≡ None) (λ x. text_at bytes.now ≡ Some (x.0.now, x.1.now)) }
{
    let (count, rest) = byte_at(bytes)?;
    piece_at(usize::from(count), rest)
}

// The text in a field of its own.
fn short(text: &[u8]) -> Txt
    requires { length text.now ≤ 32 }
    ensures { result ≡ text.now }
{
    match Txt::of(text) {
        Some(text) => text,
        None => Txt::empty(),
    }
}

/// An account, 3 to 16 hexadecimal digits in capitals, and the bytes behind it.
pub fn account_at(bytes: &[u8]) -> Option<(Txt, &[u8])>
    ensures { MatchOption result (account_at bytes.now ≡ None) (λ x. account_at bytes.now ≡ Some (x.0, x.1.now)) }
{
    let (text, rest) = text_at(bytes)?;
    if is_account(text) {
        Some((short(text), rest))
    } else {
        None
    }
}

fn is_account(text: &[u8]) -> bool
    ensures value { result ≡ is_run is_capital_hex 3 16 text.now }
    ensures short { IsTrue result → length text.now ≤ 16 }
{
    if text.len() < 3 || text.len() > 16 {
        return false;
    }
    are_capitals(text)
}

fn are_capitals(text: &[u8]) -> bool
    ensures { result ≡ list_all is_capital_hex text.now }
{
    text.iter().all(|byte| is_capital_hex(*byte))
}

fn is_capital_hex(byte: u8) -> bool
    ensures { result ≡ is_capital_hex byte }
{
    matches!(byte, b'0'..=b'9' | b'A'..=b'F')
}

/// The name of an operator, and the bytes behind it.
pub fn operator_at(bytes: &[u8]) -> Option<(Txt, &[u8])>
    ensures { MatchOption result (short_at is_name bytes.now ≡ None) (λ x. short_at is_name bytes.now ≡ Some (x.0, x.1.now)) }
{
    let (text, rest) = text_at(bytes)?;
    if is_name(text) {
        Some((short(text), rest))
    } else {
        None
    }
}

/// The digits of an `L` field, and the bytes behind them.
pub fn line_at(bytes: &[u8]) -> Option<(Txt, &[u8])>
    ensures { MatchOption result (short_at (is_run is_hex 1 6) bytes.now ≡ None)
        (λ x. short_at (is_run is_hex 1 6) bytes.now ≡ Some (x.0, x.1.now)) }
{
    let (text, rest) = text_at(bytes)?;
    if are_digits(text) {
        Some((short(text), rest))
    } else {
        None
    }
}

fn are_digits(text: &[u8]) -> bool
    ensures value { result ≡ is_run is_hex 1 6 text.now }
    ensures short { IsTrue result → length text.now ≤ 6 }
{
    if text.is_empty() || text.len() > 6 {
        return false;
    }
    are_hex(text)
}

/// The digits of an `R` field, and the bytes behind them. No digits stand for no such field.
pub fn receiver_at(bytes: &[u8]) -> Option<(Option<Txt>, &[u8])>
    ensures { MatchOption result (receiver_at bytes.now ≡ None) (λ x. receiver_at bytes.now ≡ Some (x.0, x.1.now)) }
{
    let (text, rest) = text_at(bytes)?;
    if text.is_empty() {
        Some((None, rest))
    } else if are_digits(text) {
        Some((Some(short(text)), rest))
    } else {
        None
    }
}

/// A setup text, and the bytes behind it.
#[tactic(auto, unfolding(crate::specs::Reading::long_at))]
pub fn setup_at(bytes: &[u8]) -> Option<(&[u8], &[u8])>
    ensures { MatchOption result (long_at w32 4194304 bytes.now ≡ None) (λ x. long_at w32 4194304 bytes.now ≡ Some (x.0.now, x.1.now)) }
{
    let (count, rest) = u32_at(4_194_304, bytes)?;
    piece_at(count as usize, rest)
}

/// The content of a message, and the bytes behind it.
#[tactic(auto, unfolding(crate::specs::Reading::long_at))]
pub fn content_at(bytes: &[u8]) -> Option<(&[u8], &[u8])>
    ensures { MatchOption result (long_at w16 4095 bytes.now ≡ None) (λ x. long_at w16 4095 bytes.now ≡ Some (x.0.now, x.1.now)) }
{
    let (count, rest) = u16_at(4095, bytes)?;
    piece_at(usize::from(count), rest)
}

/// A token, and the bytes behind it.
pub fn token_at(bytes: &[u8]) -> Option<(Token, &[u8])>
    ensures { MatchOption result (coded_at token_of bytes.now ≡ None) (λ x. coded_at token_of bytes.now ≡ Some (x.0, x.1.now)) }
{
    match bytes {
        [1, rest @ ..] => Some((Token::SiaDcs, rest)),
        [2, rest @ ..] => Some((Token::AdmCid, rest)),
        _ => None,
    }
}

fn outcome_at(bytes: &[u8]) -> Option<(Outcome, &[u8])>
    ensures { MatchOption result (coded_at outcome_of bytes.now ≡ None) (λ x. coded_at outcome_of bytes.now ≡ Some (x.0, x.1.now)) }
{
    match bytes {
        [1, rest @ ..] => Some((Outcome::Reached, rest)),
        [2, rest @ ..] => Some((Outcome::NoAnswer, rest)),
        [3, rest @ ..] => Some((Outcome::Done, rest)),
        _ => None,
    }
}

fn code_at(bytes: &[u8]) -> Option<(CloseCode, &[u8])>
    ensures { MatchOption result (coded_at code_of bytes.now ≡ None) (λ x. coded_at code_of bytes.now ≡ Some (x.0, x.1.now)) }
{
    match bytes {
        [1, rest @ ..] => Some((CloseCode::Real, rest)),
        [2, rest @ ..] => Some((CloseCode::False, rest)),
        [3, rest @ ..] => Some((CloseCode::Test, rest)),
        _ => None,
    }
}

// The keyholders are 2 to 5.
fn step_of(byte: u8) -> Option<Step>
    ensures { result ≡ step_of byte }
{
    match byte {
        1 => Some(Step::Premises),
        2..=5 => Some(Step::Holder(byte - 1)),
        6 => Some(Step::Police),
        7 => Some(Step::Fire),
        8 => Some(Step::Ambulance),
        9 => Some(Step::Guard),
        10 => Some(Step::Note),
        _ => None,
    }
}

/// A step, and the bytes behind it.
pub fn step_at(bytes: &[u8]) -> Option<(Step, &[u8])>
    ensures { MatchOption result (coded_at step_of bytes.now ≡ None) (λ x. coded_at step_of bytes.now ≡ Some (x.0, x.1.now)) }
{
    let (byte, rest) = byte_at(bytes)?;
    Some((step_of(byte)?, rest))
}

/// A step, an outcome that fits it, and the bytes behind both.
#[tactic(auto, unfolding(crate::specs::Reading::outcome_at))]
pub fn act_at(bytes: &[u8]) -> Option<(Step, Outcome, &[u8])>
    ensures { MatchOption result (outcome_at bytes.now ≡ None) (λ x. outcome_at bytes.now ≡ Some ((x.0, x.1), x.2.now)) }
{
    let (step, rest) = step_at(bytes)?;
    let (outcome, rest) = outcome_at(rest)?;
    if fits(step, outcome) {
        Some((step, outcome, rest))
    } else {
        None
    }
}

// An operator, the number of an incident, and the bytes behind both.
#[tactic(auto, unfolding(crate::specs::Reading::order_at))]
fn order_at(bytes: &[u8]) -> Option<(Txt, u64, &[u8])>
    ensures { MatchOption result (order_at bytes.now ≡ None) (λ x. order_at bytes.now ≡ Some ((x.0, x.1), x.2.now)) }
{
    let Some((operator, rest)) = operator_at(bytes) else {
        return None;
    };
    let Some((number, rest)) = u64_at(rest) else {
        return None;
    };
    Some((operator, number, rest))
}

// The parts of a message, and the bytes behind it.
#[derive(Clone, Copy)]
struct MessageParts<'a> {
    account: Txt,
    receiver: Option<Txt>,
    line: Txt,
    seq: u16,
    token: Token,
    content: &'a [u8],
    rest: &'a [u8],
}

#[tactic(auto, unfolding(crate::specs::Reading::message_at))]
fn message_parts(bytes: &[u8]) -> Option<MessageParts<'_>>
    ensures { MatchOption result (message_at bytes.now ≡ None) (λ m. message_at bytes.now ≡ Some (
      record {
        account = m.account;
        receiver = m.receiver;
        line = m.line;
        seq = m.seq;
        token = m.token;
        content = m.content.now;
      },
      m.rest.now,
    )) }
{
    let Some((account, rest)) = account_at(bytes) else {
        return None;
    };
    let Some((receiver, rest)) = receiver_at(rest) else {
        return None;
    };
    let Some((line, rest)) = line_at(rest) else {
        return None;
    };
    let Some((seq, rest)) = u16_at(9999, rest) else {
        return None;
    };
    let Some((token, rest)) = token_at(rest) else {
        return None;
    };
    let Some((content, rest)) = content_at(rest) else {
        return None;
    };
    Some(MessageParts {
        account,
        receiver,
        line,
        seq,
        token,
        content,
        rest,
    })
}

// The name of a line, and the bytes behind it. Version 1 leaves it out: it is `v1` there.
#[tactic(auto, unfolding(crate::specs::Reading::via_at))]
fn via_at(version: u8, bytes: &[u8]) -> Option<(Txt, &[u8])>
    ensures { MatchOption result (via_at version bytes.now ≡ None) (λ x. via_at version bytes.now ≡ Some (x.0, x.1.now)) }
{
    if version == 1 {
        return Some((via_of_one(), bytes));
    }
    operator_at(bytes)
}

/// The name of every line in version 1, which tells none.
pub fn via_of_one() -> Txt
    ensures { result ≡ via_of_one }
{
    short(b"v1")
}

#[tactic(auto, unfolding(crate::specs::Reading::sent_at))]
fn sent(alloc: Global, version: u8, bytes: &[u8]) -> Result<Option<(Event, &[u8])>, Memory>
    ensures { IfOk result (λ found. MatchOption found (sent_at version bytes.now ≡ None) (λ x. sent_at version bytes.now ≡ Some (x.0, x.1.now))) }
{
    let Some(parts) = message_parts(bytes) else {
        return Ok(None);
    };
    let Some((via, rest)) = via_at(version, parts.rest) else {
        return Ok(None);
    };
    let message = Message {
        account: parts.account,
        receiver: parts.receiver,
        line: parts.line,
        seq: parts.seq,
        token: parts.token,
        content: Blob::of(alloc, parts.content)?,
    };
    Ok(Some((Event::Message { message, via }, rest)))
}

#[tactic(auto, unfolding(crate::specs::Reading::other_fields_at))]
fn adopt(alloc: Global, bytes: &[u8]) -> Result<Option<(Event, &[u8])>, Memory>
    ensures { IfOk result (λ found. MatchOption found (other_fields_at 1 bytes.now ≡ None) (λ x. other_fields_at 1 bytes.now ≡ Some (x.0, x.1.now))) }
{
    let Some((text, rest)) = setup_at(bytes) else {
        return Ok(None);
    };
    let text = Blob::of(alloc, text)?;
    Ok(Some((Event::Adopt { text }, rest)))
}

// The fields of an event that takes no memory.
#[tactic(auto, unfolding(crate::specs::Reading::other_fields_at))]
fn short_fields(tag: u8, bytes: &[u8]) -> Option<(Event, &[u8])>
    requires { (tag ≡ 1 → ⊥) × (tag ≡ 3 → ⊥) }
    ensures { MatchOption result (other_fields_at tag bytes.now ≡ None) (λ x. other_fields_at tag bytes.now ≡ Some (x.0, x.1.now)) }
{
    match tag {
        2 => Some((Event::Start, bytes)),
        4 => beat(bytes),
        5 => Some((Event::Tick, bytes)),
        6 => claim(bytes),
        7 => next(bytes),
        8 => act(bytes),
        9 => release(bytes),
        10 => close(bytes),
        _ => None,
    }
}

#[tactic(auto, unfolding(crate::specs::Reading::other_fields_at))]
fn beat(bytes: &[u8]) -> Option<(Event, &[u8])>
    ensures { MatchOption result (other_fields_at 4 bytes.now ≡ None) (λ x. other_fields_at 4 bytes.now ≡ Some (x.0, x.1.now)) }
{
    let Some((account, rest)) = account_at(bytes) else {
        return None;
    };
    Some((Event::Beat { account }, rest))
}

#[tactic(auto, unfolding(crate::specs::Reading::other_fields_at))]
fn claim(bytes: &[u8]) -> Option<(Event, &[u8])>
    ensures { MatchOption result (other_fields_at 6 bytes.now ≡ None) (λ x. other_fields_at 6 bytes.now ≡ Some (x.0, x.1.now)) }
{
    let Some((operator, number, rest)) = order_at(bytes) else {
        return None;
    };
    Some((Event::Claim { operator, number }, rest))
}

#[tactic(auto, unfolding(crate::specs::Reading::other_fields_at))]
fn next(bytes: &[u8]) -> Option<(Event, &[u8])>
    ensures { MatchOption result (other_fields_at 7 bytes.now ≡ None) (λ x. other_fields_at 7 bytes.now ≡ Some (x.0, x.1.now)) }
{
    let Some((operator, rest)) = operator_at(bytes) else {
        return None;
    };
    Some((Event::Next { operator }, rest))
}

#[tactic(auto, unfolding(crate::specs::Reading::other_fields_at))]
fn act(bytes: &[u8]) -> Option<(Event, &[u8])>
    ensures { MatchOption result (other_fields_at 8 bytes.now ≡ None) (λ x. other_fields_at 8 bytes.now ≡ Some (x.0, x.1.now)) }
{
    let Some((operator, number, rest)) = order_at(bytes) else {
        return None;
    };
    let Some((step, outcome, rest)) = act_at(rest) else {
        return None;
    };
    let event = Event::Act {
        operator,
        number,
        step,
        outcome,
    };
    Some((event, rest))
}

#[tactic(auto, unfolding(crate::specs::Reading::other_fields_at))]
fn release(bytes: &[u8]) -> Option<(Event, &[u8])>
    ensures { MatchOption result (other_fields_at 9 bytes.now ≡ None) (λ x. other_fields_at 9 bytes.now ≡ Some (x.0, x.1.now)) }
{
    let Some((operator, number, rest)) = order_at(bytes) else {
        return None;
    };
    Some((Event::Release { operator, number }, rest))
}

#[tactic(auto, unfolding(crate::specs::Reading::other_fields_at))]
fn close(bytes: &[u8]) -> Option<(Event, &[u8])>
    ensures { MatchOption result (other_fields_at 10 bytes.now ≡ None) (λ x. other_fields_at 10 bytes.now ≡ Some (x.0, x.1.now)) }
{
    let Some((operator, number, rest)) = order_at(bytes) else {
        return None;
    };
    let Some((code, rest)) = code_at(rest) else {
        return None;
    };
    let event = Event::Close {
        operator,
        number,
        code,
    };
    Some((event, rest))
}

fn event_fields(
    alloc: Global,
    version: u8,
    tag: u8,
    bytes: &[u8],
) -> Result<Option<(Event, &[u8])>, Memory>
    ensures { IfOk result (λ found. MatchOption found (fields_at version tag bytes.now ≡ None) (λ x. fields_at version tag bytes.now ≡ Some (x.0, x.1.now))) }
{
    match tag {
        1 => adopt(alloc, bytes),
        3 => sent(alloc, version, bytes),
        _ => Ok(short_fields(tag, bytes)),
    }
}

#[tactic(auto, unfolding(crate::specs::Reading::event_at))]
fn whole(alloc: Global, version: u8, bytes: &[u8]) -> Result<Option<(Event, u64)>, Memory>
    ensures { IfOk result (λ found. MatchOption found (decoded version bytes.now ≡ None) (λ x. decoded version bytes.now ≡ Some (x.0, x.1))) }
{
    let Some((tag, rest)) = byte_at(bytes) else {
        return Ok(None);
    };
    let Some((at, rest)) = moment_at(rest) else {
        return Ok(None);
    };
    match event_fields(alloc, version, tag, rest) {
        Ok(Some((event, []))) => Ok(Some((event, at))),
        Ok(_) => Ok(None),
        Err(Memory) => Err(Memory),
    }
}

/// The event and the moment that the bytes spell in the version, which is 1 or 2. None exactly where they are no spelling in it. The error
/// is want of memory.
pub fn decode(alloc: Global, version: u8, bytes: &[u8]) -> Result<Option<(Event, u64)>, Memory>
    requires version { IsVersion version }
    ensures found { IfOk result (λ found. IfSome found (λ x. HasSpellingIn version x.0 x.1 × (bytes.now ≡ spelling_in version x.0 x.1))) }
    ensures only { (event : AnEvent) (at : ℕ) → HasSpellingIn version event at → bytes.now ≡ spelling_in version event at
        → IfOk result (λ found. IfSome found (λ x. (x.0 ≡ event) × (x.1 ≡ at)) × IsSome found) }
{
    whole(alloc, version, bytes)
}
