// A frame in a fixed buffer.
ghost use Rattle.std.specs.Prelude.{◌≡◌, ◌+◌, ◌<◌, ◌≤◌, [], ◌∷◌, ◌++◌, length, drop};
ghost use Rattle.dc09_frame.specs.Frames.{digit_of, head_of, frame_of, IsBody};

use crate::checksum::check;
use crate::limits::FRAME_LIMIT;
use std::marker::Model;

/// A buffer of 4,105 bytes with a length, which holds the longest frame. Contracts see it as the list of its bytes.
#[derive(Drop)]
pub struct FrameBuf {
    bytes: [u8; FRAME_LIMIT],
    len: usize,
}

impl Model for FrameBuf {
    ghost use Rattle.std.specs.Prelude.{ℕ, ◌≤◌, List, take};
    ghost use Rattle.dc09_frame.specs.declared.limits.TheConstants.{FRAME_LIMIT};

    ghost Value = { List ℕ };

    ghost view = { λ b. take b.len b.bytes };

    ghost invariant = { λ b. b.len ≤ FRAME_LIMIT };
}

impl FrameBuf {
    /// No bytes.
    pub fn new() -> FrameBuf
        ensures { result ≡ [] }
    {
        FrameBuf {
            bytes: [0; FRAME_LIMIT],
            len: 0,
        }
    }

    /// Its bytes.
    pub fn bytes(&self) -> &[u8]
        ensures value { result.now ≡ self.now }
        ensures short { length result.now ≤ FRAME_LIMIT }
    {
        &self.bytes[..self.len]
    }

    /// Drops all bytes.
    pub fn clear(&mut self)
        ensures { self.new ≡ [] }
    {
        self.len = 0;
    }

    /// Puts bytes behind those that stand there, where there is room.
    pub fn append(&mut self, bytes: &[u8])
        requires { length self.old + length bytes.now ≤ FRAME_LIMIT }
        ensures { self.new ≡ self.old ++ bytes.now }
    {
        let end = self.len + bytes.len();
        self.bytes[self.len..end].copy_from_slice(bytes);
        self.len = end;
    }

    /// Leaves nine bytes, behind which a body can be put, and that `end_frame` writes.
    pub fn begin_frame(&mut self)
        ensures { length self.new ≡ 9 }
    {
        self.len = 9;
    }

    /// Makes what stands behind nine bytes a frame.
    pub fn end_frame(&mut self)
        requires { IsBody (drop 9 self.old) }
        ensures { self.new ≡ frame_of (drop 9 self.old) }
    {
        let body = &self.bytes()[9..];
        let head = head_of(check(body), body.len() as u16);
        self.bytes[..9].copy_from_slice(&head);
        self.append(b"\r");
    }
}

// What stands before a body: the line feed, the check and the length.
fn head_of(sum: u16, length: u16) -> [u8; 9]
    ensures { result ≡ head_of sum length }
{
    [
        b'\n',
        digit_of(sum / 4096),
        digit_of(sum / 256 % 16),
        digit_of(sum / 16 % 16),
        digit_of(sum % 16),
        digit_of(length / 4096),
        digit_of(length / 256 % 16),
        digit_of(length / 16 % 16),
        digit_of(length % 16),
    ]
}

// A number below 16 as an upper-case digit.
fn digit_of(number: u16) -> u8
    requires { number < 16 }
    ensures { result ≡ digit_of number }
{
    let number = number as u8;
    if number < 10 {
        number + b'0'
    } else {
        number - 10 + b'A'
    }
}
