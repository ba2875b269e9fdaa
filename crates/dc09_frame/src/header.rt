// The header of a body.
ghost use Rattle.std.specs.Prelude.{◌≡◌, ◌++◌, ℕ, List, length, Some, IfSome};
ghost use Rattle.dc09_frame.specs.Headers.{header_at, header_bytes, IsHeader, IsReadFrom};

use crate::reading::header_at;
use arc_text::Txt;

/// The header of a body: what stands before the first block. The digits stand as they came, in either case.
#[derive(Clone, Copy, Debug)]
pub struct Header {
    /// The message is encrypted.
    pub sealed: bool,
    /// What kind of data the message has: 1 to 16 bytes from `A` to `Z`, `0` to `9` and `-`.
    pub token: Txt,
    /// The sequence: four decimal digits.
    pub seq: [u8; 4],
    /// The receiver number: 1 to 6 hexadecimal digits, where the message has one.
    pub receiver: Option<Txt>,
    /// The line number: 1 to 6 hexadecimal digits.
    pub line: Txt,
    /// The account: 3 to 16 hexadecimal digits.
    pub account: Txt,
}

/// The word of a reply that echoes a header.
#[derive(Clone, Copy, Debug, PartialEq, Eq)]
pub enum Echo {
    /// The message is acknowledged.
    Ack,
    /// The message could not be taken.
    Duh,
}

impl Header {
    /// The header that begins a body, and how many bytes it has. None exactly where none does.
    pub fn read(body: &[u8]) -> Option<(Header, usize)>
        ensures exact { result ≡ header_at body.now }
        // What is read is spelled so.
        ensures found { IfSome result (λ r. IsReadFrom body.now r.0 r.1) }
        // What is spelled so is read, whatever follows.
        ensures only { (h : Header) (rest : List ℕ) → IsHeader h → body.now ≡ header_bytes h ++ rest → result ≡ Some (h, length (header_bytes h)) }
    {
        header_at(body)
    }
}
