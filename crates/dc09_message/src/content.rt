// What a message keeps of its blocks.
ghost use Rattle.std.specs.Prelude.{◌≡◌, ◌&&◌, ◌≤◌, length, IfSome};
ghost use Rattle.std.specs.Str.{bytes_eq};
ghost use Rattle.arc_data.specs.Digits.{capitals};
ghost use Rattle.dc09_frame.specs.Reading.{Gives};
ghost use Rattle.dc09_message.specs.Contents.{is_tail, fits_tail, begins_account, after_account, after_bar, data_behind, content_in};
ghost use Rattle.dc09_message.specs.Reading.{data_in};

use crate::blocks::Blocks;
use crate::kind::MessageKind;
use arc_data::{Token, Txt};
use content_signals::has_signals;
use dc09_frame::{Alphabet, Header, after_byte, run_at};

// How many bytes a tail has behind its `_`.
const TAIL_LEN: usize = 19;

/// What a message keeps of the bytes behind its header, or behind the bar of a sealed one: a heartbeat nothing, a report its
/// data and further blocks without their last `]`. None exactly where the blocks, an account in them, the tail or the data
/// cannot be read.
pub fn content_in<'a>(kind: MessageKind, header: &Header, bytes: &'a [u8]) -> Option<&'a [u8]>
    ensures value { Gives (λ content. content.now) result (content_in kind header.now bytes.now) }
    ensures short { IfSome result (λ content. length content.now ≤ length bytes.now) }
{
    let found = Blocks::read(bytes)?;
    if !fits_tail(header, found.tail) {
        return None;
    }
    match kind {
        MessageKind::Heartbeat => Some(&[]),
        MessageKind::Report(token) => {
            let contents = data_in(token, header, found.first)?;
            Some(&found.inside[found.first.len() - contents.len()..])
        }
    }
}

// Whether the tail may stand behind the blocks: in a sealed message the stamp stands in its place.
fn fits_tail(header: &Header, tail: &[u8]) -> bool
    ensures { result ≡ fits_tail header.now tail.now }
{
    if header.sealed {
        tail.is_empty()
    } else {
        is_tail(tail)
    }
}

// Nothing, or `_` and the bytes of a stamp, which are not read.
fn is_tail(tail: &[u8]) -> bool
    ensures { result ≡ is_tail tail.now }
{
    match tail {
        [] => true,
        [mark, rest @ ..] => *mark == b'_' && rest.len() == TAIL_LEN,
    }
}

// The data of a report, which ends its first block, where the accounts before it are the header's and it has signals.
#[tactic(auto, unfolding(crate::specs::Reading::data_in))]
fn data_in<'a>(token: Token, header: &Header, first: &'a [u8]) -> Option<&'a [u8]>
    ensures { Gives (λ contents. contents.now) result (data_in token header.now first.now) }
{
    let rest = after_bar(header, first)?;
    let contents = data_behind(header, rest)?;
    if !has_signals(token, contents) {
        return None;
    }
    Some(contents)
}

// What follows the bar of the first block: the bar of a sealed message is cut off already.
fn after_bar<'a>(header: &Header, first: &'a [u8]) -> Option<&'a [u8]>
    ensures { Gives (λ rest. rest.now) result (after_bar header.now first.now) }
{
    if header.sealed {
        Some(first)
    } else if begins_account(first) {
        after_account(header, first)
    } else {
        after_byte(b'|', first)
    }
}

// The data behind the bar, before which the account may stand again.
fn data_behind<'a>(header: &Header, rest: &'a [u8]) -> Option<&'a [u8]>
    ensures { Gives (λ contents. contents.now) result (data_behind header.now rest.now) }
{
    if begins_account(rest) {
        after_account(header, rest)
    } else {
        Some(rest)
    }
}

fn begins_account(bytes: &[u8]) -> bool
    ensures { result ≡ begins_account bytes.now }
{
    matches!(bytes, [b'#', ..])
}

// What follows `#`, the header's account and `|`.
#[tactic(auto, unfolding(crate::specs::Contents::after_account))]
fn after_account<'a>(header: &Header, bytes: &'a [u8]) -> Option<&'a [u8]>
    ensures { Gives (λ rest. rest.now) result (after_account header.now bytes.now) }
{
    let rest = after_byte(b'#', bytes)?;
    let (digits, rest) = run_at(Alphabet::Hexadecimal, 3, 16, rest)?;
    let rest = after_byte(b'|', rest)?;
    if !is_account_of(header, digits) {
        return None;
    }
    Some(rest)
}

// Whether the digits are the header's account, in either case.
fn is_account_of(header: &Header, digits: &[u8]) -> bool
    requires { length digits.now ≤ 16 }
    ensures { result ≡ bytes_eq (capitals digits.now) (capitals header.now.account) }
{
    if digits == header.account.bytes() {
        return true;
    }
    let account = Txt::of(digits).unwrap();
    account.capitals() == header.account.capitals()
}
