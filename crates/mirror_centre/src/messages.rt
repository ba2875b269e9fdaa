// The bytes of asks and answers.
ghost use Rattle.std.specs.Prelude.{◌≡◌, ◌++◌, OnOk};
ghost use Rattle.mirror_centre.specs.Messages.{Record, End, Summed, ask_text, answer_text};
ghost use Rattle.mirror_centre.specs.Sayings.{record_in, count_in, read_in};

use arc_data::Memory;
use event_codec::{piece_at, put, put_byte, u32_at, u64_at};

// The most bytes that a body may have.
const MOST: u32 = 4_194_400;

/// What an answer says.
#[derive(Clone, Copy, Debug, PartialEq, Eq)]
pub(crate) enum Said {
    /// This is the record of this number; its body stands from place 13 on.
    Record { number: u64 },
    /// There is no record yet.
    End,
    /// So many entries are summed up.
    Summed { count: u64 },
}

/// The ask of a mirror that has so many recorded entries.
pub(crate) fn ask_of(have: u64) -> [u8; 9]
    ensures { result ≡ ask_text have }
{
    let mut ask = [b'G'; 9];
    ask[1..].copy_from_slice(&have.to_be_bytes());
    ask
}

/// What the bytes say as an answer, all of them. None where they are no answer.
pub(crate) fn read_answer(message: &[u8]) -> Option<Said>
    ensures { result ≡ read_in message.now }
{
    match message {
        [b'R', rest @ ..] => match read_record(rest) {
            Some(number) => Some(Said::Record { number }),
            None => None,
        },
        [b'E'] => Some(Said::End),
        [b'B', rest @ ..] => match read_count(rest) {
            Some(count) => Some(Said::Summed { count }),
            None => None,
        },
        _ => None,
    }
}

// The number of a record, of the bytes behind `R`.
#[tactic(auto, unfolding(crate::specs::Sayings::record_at, event_codec::specs::Reading::long_at))]
fn read_record(bytes: &[u8]) -> Option<u64>
    ensures { result ≡ record_in bytes.now }
{
    let (number, rest) = u64_at(bytes)?;
    let (size, rest) = u32_at(MOST, rest)?;
    let (body, rest) = piece_at(size as usize, rest)?;
    if !body.is_empty() && rest.is_empty() {
        Some(number)
    } else {
        None
    }
}

// A count, of the bytes behind `B`.
fn read_count(bytes: &[u8]) -> Option<u64>
    ensures { result ≡ count_in bytes.now }
{
    match u64_at(bytes) {
        Some((count, [])) => Some(count),
        _ => None,
    }
}

/// Puts the answer with this record last. The error is want of memory.
pub(crate) fn put_record(number: u64, body: &[u8], out: &mut Vec<u8>) -> Result<(), Memory>
    ensures { OnOk result (out.new.items ≡ out.old.items ++ answer_text (Record number body.now)) }
{
    put_byte(b'R', out)?;
    put(&number.to_be_bytes(), out)?;
    // The four low bytes: the length of a body has no others.
    put(&(body.len() as u64).to_be_bytes()[4..], out)?;
    put(body, out)
}

/// Puts the answer last that there is no record yet. The error is want of memory.
pub(crate) fn put_end(out: &mut Vec<u8>) -> Result<(), Memory>
    ensures { OnOk result (out.new.items ≡ out.old.items ++ answer_text End) }
{
    put_byte(b'E', out)
}

/// Puts the answer last that so many entries are summed up. The error is want of memory.
pub(crate) fn put_count(count: u64, out: &mut Vec<u8>) -> Result<(), Memory>
    ensures { OnOk result (out.new.items ≡ out.old.items ++ answer_text (Summed count)) }
{
    put_byte(b'B', out)?;
    put(&count.to_be_bytes(), out)
}
