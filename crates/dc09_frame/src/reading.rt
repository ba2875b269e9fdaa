// The parts of a header, read from the front of some bytes. Each reader gives what it read and what is left.
ghost use Rattle.std.specs.Prelude.{◌≡◌, ◌≤◌, length, IfSome};
ghost use Rattle.dc09_frame.specs.Headers.{after_byte, star_at, run_at, receiver_at, header_at};
ghost use Rattle.dc09_frame.specs.Reading.{test_of, Gives};
ghost use Rattle.std.specs.List.{prefix_len};
ghost use Rattle.arc_data.specs.Digits.{is_digit, is_hex};

use crate::header::Header;
use arc_text::Txt;

/// Which bytes a run may have.
#[derive(Clone, Copy)]
pub enum Alphabet {
    /// `A` to `Z`, `0` to `9` and `-`.
    Token,
    /// `0` to `9`.
    Decimal,
    /// `0` to `9`, `A` to `F` and `a` to `f`.
    Hexadecimal,
}

impl Alphabet {
    fn has(self, byte: u8) -> bool
        ensures { result ≡ test_of self byte }
    {
        match self {
            Alphabet::Token => matches!(byte, b'A'..=b'Z' | b'0'..=b'9' | b'-'),
            Alphabet::Decimal => byte.is_ascii_digit(),
            Alphabet::Hexadecimal => byte.is_ascii_hexdigit(),
        }
    }
}

/// What follows this byte, where the bytes begin with it.
pub fn after_byte(byte: u8, bytes: &[u8]) -> Option<&[u8]>
    ensures value { Gives (λ rest. rest.now) result (after_byte byte bytes.now) }
    ensures shorter { IfSome result (λ rest. length rest.now ≤ length bytes.now) }
{
    match bytes {
        [first, rest @ ..] if *first == byte => Some(rest),
        _ => None,
    }
}

// The star, where there is one.
fn star_at(bytes: &[u8]) -> (bool, &[u8])
    ensures star { result.0 ≡ (star_at bytes.now).0 }
    ensures rest { result.1.now ≡ (star_at bytes.now).1 }
    ensures shorter { length result.1.now ≤ length bytes.now }
{
    match bytes {
        [b'*', rest @ ..] => (true, rest),
        _ => (false, bytes),
    }
}

// How many bytes from the front on are of the alphabet.
fn run_length(alphabet: Alphabet, bytes: &[u8]) -> usize
    ensures value { result ≡ prefix_len (test_of alphabet) bytes.now }
    ensures within { result ≤ length bytes.now }
{
    for (i, byte) in bytes.iter().enumerate() {
        if !alphabet.has(*byte) {
            return i;
        }
    }
    bytes.len()
}

/// The longest run of bytes of the alphabet at the front, where it has between so many and so many bytes, and what follows it.
#[tactic(auto, unfolding(crate::specs::Headers::run_at))]
pub fn run_at(alphabet: Alphabet, low: usize, high: usize, bytes: &[u8]) -> Option<(&[u8], &[u8])>
    ensures value { Gives (λ x. (x.0.now, x.1.now)) result (run_at (test_of alphabet) low high bytes.now) }
    ensures least { IfSome result (λ x. low ≤ length x.0.now) }
    ensures most { IfSome result (λ x. length x.0.now ≤ high) }
    ensures shorter { IfSome result (λ x. length x.1.now ≤ length bytes.now) }
{
    let length = run_length(alphabet, bytes);
    if length < low || length > high {
        return None;
    }
    Some(bytes.split_at(length))
}

// A run as a text.
fn text_of(run: &[u8]) -> Txt
    requires { length run.now ≤ 32 }
    ensures { result ≡ run.now }
{
    Txt::of(run).unwrap()
}

// The four digits of a sequence.
fn sequence_at(bytes: &[u8]) -> Option<([u8; 4], &[u8])>
    ensures value { Gives (λ x. (x.0, x.1.now)) result (run_at is_digit 4 4 bytes.now) }
    ensures shorter { IfSome result (λ x. length x.1.now ≤ length bytes.now) }
{
    let (run, rest) = run_at(Alphabet::Decimal, 4, 4, bytes)?;
    let mut seq = [0; 4];
    seq.copy_from_slice(run);
    Some((seq, rest))
}

// The `R` field, where there is one.
fn receiver_at(bytes: &[u8]) -> Option<(Option<Txt>, &[u8])>
    ensures value { Gives (λ x. (x.0, x.1.now)) result (receiver_at bytes.now) }
    ensures shorter { IfSome result (λ x. length x.1.now ≤ length bytes.now) }
{
    match bytes {
        [b'R', rest @ ..] => {
            let (digits, rest) = run_at(Alphabet::Hexadecimal, 1, 6, rest)?;
            Some((Some(text_of(digits)), rest))
        }
        _ => Some((None, bytes)),
    }
}

// The header that begins a body, and how many bytes it has.
#[tactic(auto, unfolding(crate::specs::Headers::header_at))]
pub fn header_at(body: &[u8]) -> Option<(Header, usize)>
    ensures { result ≡ header_at body.now }
{
    let rest = after_byte(b'"', body)?;
    let (sealed, rest) = star_at(rest);
    let (token, rest) = run_at(Alphabet::Token, 1, 16, rest)?;
    let rest = after_byte(b'"', rest)?;
    let (seq, rest) = sequence_at(rest)?;
    let Some((receiver, rest)) = receiver_at(rest) else {
        return None;
    };
    let rest = after_byte(b'L', rest)?;
    let (line, rest) = run_at(Alphabet::Hexadecimal, 1, 6, rest)?;
    let rest = after_byte(b'#', rest)?;
    let (account, rest) = run_at(Alphabet::Hexadecimal, 3, 16, rest)?;
    let rest = after_byte(b'[', rest)?;
    let header = Header {
        sealed,
        token: text_of(token),
        seq,
        receiver,
        line: text_of(line),
        account: text_of(account),
    };
    Some((header, body.len() - rest.len()))
}
