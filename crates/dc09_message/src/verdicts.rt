// The verdict on a body.
ghost use Rattle.std.specs.Prelude.{◌≡◌, ◌≤◌, ◌-◌, IfOk, IfErr, length, true};
ghost use Rattle.std.specs.Option.{option_map};
ghost use Rattle.arc_data.specs.Digits.{dec_value, is_run, is_digit};
ghost use Rattle.arc_data.specs.WellFormed.{IsMessage};
ghost use Rattle.alarm_rules.specs.Setups.{meaning};
ghost use Rattle.arc_data.specs.Digits.{capitals};
ghost use Rattle.civil_time.specs.Stamp.{IsMoment};
ghost use Rattle.dc09_frame.specs.Frames.{IsBody};
ghost use Rattle.dc09_frame.specs.Headers.{IsHeader};
ghost use Rattle.dc09_crypt.specs.Sealed.{text_under, opening_of};
ghost use Rattle.dc09_message.specs.Contents.{kind_of, content_in as content_found};
ghost use Rattle.dc09_message.specs.Reading.{on_key};
ghost use Rattle.dc09_message.specs.Verdicts.{message_of, on_blocks, on_opening, on_kind, verdict_of, IsGood, IsKeyed, IsKnown, TakesMemory};

use crate::content::content_in;
use crate::kind::MessageKind;
use crate::outcome::{Verdict, Why};
use accounts::Setup;
use aes_chain::Key;
use arc_data::{Blob, Memory, Message, Token, Txt};
use civil_time::fresh;
use dc09_crypt::{Opening, open_body};
use dc09_frame::{BODY_LIMIT, FrameBuf, Header};
use std::alloc::Global;

// What a header tells of a message, where its token is read and its account known: the kind, and the account in capitals.
#[derive(Drop)]
struct Known {
    kind: MessageKind,
    account: Txt,
}

/// The verdict on the body of an undamaged frame, at a reading of the clock in seconds since 1970: the first case that holds.
/// The text of a sealed message is decrypted into `room`. The error is want of memory, which only a numbered message takes.
#[tactic(auto, unfolding(crate::specs::Verdicts::verdict_of))]
pub fn verdict(
    alloc: Global,
    setup: &Setup,
    now: u64,
    body: &[u8],
    room: &mut FrameBuf,
) -> Result<Verdict, Memory>
    requires body { IsBody body.now }
    requires now { IsMoment now }
    ensures exact { IfOk result (λ v. v ≡ verdict_of (meaning setup.now) now body.now) }
    ensures memory { IfErr result (λ _. TakesMemory (verdict_of (meaning setup.now) now body.now)) }
    ensures good { IfOk result IsGood }
    ensures keyed { IfOk result (IsKeyed (meaning setup.now)) }
    ensures known { IfOk result (IsKnown (meaning setup.now)) }
{
    match Header::read(body) {
        None => Ok(Verdict::Silence),
        Some((header, length)) => by_token(alloc, setup, now, &header, &body[length..], room),
    }
}

// The verdict on a message with this header, by its token and account.
#[tactic(auto, using(crate::proofs::AccountLemmas::no_account))]
fn by_token(
    alloc: Global,
    setup: &Setup,
    now: u64,
    header: &Header,
    rest: &[u8],
    room: &mut FrameBuf,
) -> Result<Verdict, Memory>
    requires header { IsHeader header.now }
    requires size { length rest.now ≤ BODY_LIMIT }
    requires now { IsMoment now }
    ensures exact { IfOk result (λ v. v ≡ on_kind (meaning setup.now) now header.now rest.now (kind_of header.now.token)) }
    ensures memory { IfErr result (λ _. TakesMemory (on_kind (meaning setup.now) now header.now rest.now (kind_of header.now.token))) }
    ensures good { IfOk result IsGood }
{
    let Some(kind) = kind_of(&header.token) else {
        return Ok(Verdict::Duh(*header, Why::UnknownToken));
    };
    let account = header.account.capitals();
    let Some(place) = setup.place(&account) else {
        return Ok(Verdict::Duh(*header, Why::UnknownAccount));
    };
    let key = setup.account(place).key.as_ref();
    let known = Known { kind, account };
    by_key(alloc, now, header, &known, rest, key, room)
}

// The verdict on a message of a known account, by the key of the account.
fn by_key(
    alloc: Global,
    now: u64,
    header: &Header,
    known: &Known,
    rest: &[u8],
    key: Option<&Key>,
    room: &mut FrameBuf,
) -> Result<Verdict, Memory>
    requires header { IsHeader header.now }
    requires account { known.now.account ≡ capitals header.now.account }
    requires size { length rest.now ≤ BODY_LIMIT }
    requires now { IsMoment now }
    ensures exact { IfOk result (λ v. v ≡ on_key now header.now known.now.kind rest.now (option_map (λ k. k.now) key.entry)) }
    ensures memory { IfErr result (λ _. TakesMemory (on_key now header.now known.now.kind rest.now (option_map (λ k. k.now) key.entry))) }
    ensures good { IfOk result IsGood }
{
    match key {
        Some(key) if header.sealed => by_opening(alloc, now, header, known, rest, key, room),
        Some(_) => Ok(Verdict::Duh(*header, Why::PlainButKeyed)),
        None if header.sealed => Ok(Verdict::Duh(*header, Why::SealedButKeyless)),
        None => by_blocks(alloc, header, known, rest),
    }
}

// The verdict on a sealed message, of which these are the digits, under the key of its account.
fn by_opening(
    alloc: Global,
    now: u64,
    header: &Header,
    known: &Known,
    digits: &[u8],
    key: &Key,
    room: &mut FrameBuf,
) -> Result<Verdict, Memory>
    requires header { IsHeader header.now }
    requires account { known.now.account ≡ capitals header.now.account }
    requires size { length digits.now ≤ BODY_LIMIT }
    requires now { IsMoment now }
    ensures exact { IfOk result (λ v. v ≡ on_opening now header.now known.now.kind (text_under key.now digits.now) (opening_of key.now digits.now)) }
    ensures memory { IfErr result (λ _. TakesMemory (on_opening now header.now known.now.kind (text_under key.now digits.now) (opening_of key.now digits.now))) }
    ensures good { IfOk result IsGood }
{
    match open_body(key, digits, room) {
        Opening::NotCipher => Ok(Verdict::Duh(*header, Why::NotCipher)),
        Opening::NoBar => Ok(Verdict::Duh(*header, Why::NoBar)),
        Opening::NoStamp => Ok(Verdict::Duh(*header, Why::NoStamp)),
        Opening::Text { from, to, stamp } => {
            if !fresh(stamp, now) {
                return Ok(Verdict::Nak);
            }
            by_blocks(alloc, header, known, &room.bytes()[from..to])
        }
    }
}

// The verdict on a message whose blocks are to be read, of a known account and, where it is sealed, fresh.
fn by_blocks(alloc: Global, header: &Header, known: &Known, bytes: &[u8]) -> Result<Verdict, Memory>
    requires header { IsHeader header.now }
    requires account { known.now.account ≡ capitals header.now.account }
    requires size { length bytes.now ≤ BODY_LIMIT }
    ensures exact { IfOk result (λ v. v ≡ on_blocks header.now known.now.kind (content_found known.now.kind header.now bytes.now)) }
    ensures memory { IfErr result (λ _. TakesMemory (on_blocks header.now known.now.kind (content_found known.now.kind header.now bytes.now))) }
    ensures good { IfOk result IsGood }
{
    let Some(content) = content_in(known.kind, header, bytes) else {
        return Ok(Verdict::Duh(*header, Why::BadBlocks));
    };
    match known.kind {
        MessageKind::Heartbeat => Ok(Verdict::Beat(*header, known.account)),
        MessageKind::Report(token) => {
            let message = message_from(alloc, token, header, &known.account, content)?;
            Ok(Verdict::Numbered(*header, message))
        }
    }
}

// The kind of message that a token announces, where it is read.
fn kind_of(token: &Txt) -> Option<MessageKind>
    ensures { result ≡ kind_of token.now }
{
    let token = token.bytes();
    if token == b"NULL".as_slice() {
        Some(MessageKind::Heartbeat)
    } else if token == b"ADM-CID".as_slice() {
        Some(MessageKind::Report(Token::AdmCid))
    } else if token == b"SIA-DCS".as_slice() {
        Some(MessageKind::Report(Token::SiaDcs))
    } else {
        None
    }
}

// The message of a header and what it keeps. The account is that of the header, in capitals.
fn message_from(
    alloc: Global,
    token: Token,
    header: &Header,
    account: &Txt,
    content: &[u8],
) -> Result<Message, Memory>
    requires header { IsHeader header.now }
    requires account { account.now ≡ capitals header.now.account }
    requires size { length content.now ≤ BODY_LIMIT }
    ensures exact { IfOk result (λ m. m ≡ message_of token header.now content.now) }
    ensures good { IfOk result IsMessage }
{
    Ok(Message {
        account: *account,
        receiver: header.receiver,
        line: header.line,
        seq: sequence_of(&header.seq),
        token,
        content: Blob::of(alloc, content)?,
    })
}

// The number that a sequence's four digits spell.
fn sequence_of(digits: &[u8; 4]) -> u16
    requires { is_run is_digit 4 4 digits.now ≡ true }
    ensures { result ≡ dec_value digits.now }
{
    let [a, b, c, d] = *digits;
    let number = value(a) * 1000 + value(b) * 100 + value(c) * 10 + value(d);
    number as u16
}

// What a decimal digit stands for.
fn value(digit: u8) -> u32
    ensures { result ≡ digit - 48 }
{
    u32::from(digit.saturating_sub(b'0'))
}
