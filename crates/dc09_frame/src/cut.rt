// What a piece of a stream is.
ghost use Rattle.std.specs.Prelude.{◌≡◌, ◌≤◌, length, true};
ghost use Rattle.dc09_frame.specs.Frames.{cut, do_spell, has_length, has_check};

use crate::checksum::check;
use crate::limits::PIECE_LIMIT;
use arc_text::hex_word;

/// What a piece is: the first of TooLong, BadLength and BadCheck that holds, and otherwise Whole.
#[derive(Clone, Copy, Debug, PartialEq, Eq)]
pub enum Cut {
    /// The piece is a frame's.
    Whole,
    /// The first four bytes are not the check of the body in hexadecimal digits.
    BadCheck,
    /// Fewer than 9 bytes, or the length is not the digit 0 and three digits that spell how many bytes follow, or the
    /// body does not begin with a double quote.
    BadLength,
    /// More than 4,103 bytes.
    TooLong,
}

impl Cut {
    /// What the piece is, which lies between a line feed and the next carriage return.
    #[tactic(auto, unfolding(crate::specs::Frames::cut))]
    pub fn of(piece: &[u8]) -> Cut
        ensures { result ≡ cut piece.now }
    {
        if piece.len() > PIECE_LIMIT {
            return Cut::TooLong;
        }
        if !has_length(piece) {
            return Cut::BadLength;
        }
        if !has_check(piece) {
            return Cut::BadCheck;
        }
        Cut::Whole
    }
}

// Eight bytes and a body that begins with a double quote; the fifth to the eighth spell how many bytes the body has.
fn has_length(piece: &[u8]) -> bool
    ensures value { result ≡ has_length piece.now }
    ensures long { result ≡ true → 9 ≤ length piece.now }
{
    piece.len() >= 9
        && piece[4] == b'0'
        && do_spell(&piece[4..8], piece.len() - 8)
        && piece[8] == b'"'
}

// The first four bytes spell the check of the body.
fn has_check(piece: &[u8]) -> bool
    requires { 8 ≤ length piece.now }
    ensures { result ≡ has_check piece.now }
{
    do_spell(&piece[..4], usize::from(check(&piece[8..])))
}

// Four hexadecimal digits spell the number.
fn do_spell(digits: &[u8], number: usize) -> bool
    ensures { result ≡ do_spell digits.now number }
{
    match hex_word(digits) {
        Some(spelled) => usize::from(spelled) == number,
        None => false,
    }
}
