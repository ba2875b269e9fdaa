// The pieces of a stream that comes bit by bit.
ghost use Rattle.std.specs.Prelude.{◌≡◌, ◌<◌, ◌≤◌, ◌++◌, ◌∷◌, [], ℕ, List, length, take, IfNone, OnSome, None, Some, false};
ghost use Rattle.std.specs.List.{list_any, position_or_len};
ghost use Rattle.dc09_frame.specs.Cutting.{is_end, WasFed, Feeds};
ghost use Rattle.dc09_frame.specs.Holding.{cut_of_kept};
ghost use Rattle.dc09_frame.specs.Frames.{IsBody};

use crate::cut::Cut;
use crate::limits::PIECE_LIMIT;
use memchr::memchr2;
use std::marker::Model;

// Where the stream stands: outside of pieces, in one whose bytes are kept, or in one that is too long for a frame.
#[derive(Clone, Copy)]
enum Piece {
    Closed,
    Open,
    Overlong,
}

/// Cuts a stream of bytes, fed in any parts, into its pieces: what lies between a line feed and the next carriage return
/// with no line feed between. It keeps 4,103 bytes at most, however long a piece is.
#[derive(Drop)]
pub struct Cutter {
    bytes: [u8; PIECE_LIMIT],
    len: usize,
    piece: Piece,
}

impl Model for Cutter {
    ghost use Rattle.dc09_frame.specs.Cutting.{CutterValue};
    ghost use Rattle.dc09_frame.specs.Holding.{kept_in, body_in, IsHeld};

    ghost Value = { CutterValue };

    ghost view = { λ c. record { kept = kept_in c.piece c.len c.bytes; body = body_in c.piece c.len c.bytes } };

    ghost invariant = { λ c. IsHeld c.len c.bytes };
}

impl Cutter {
    /// A cutter before the first byte of a stream.
    pub fn new() -> Cutter
        ensures { WasFed [] result }
    {
        Cutter {
            bytes: [0; PIECE_LIMIT],
            len: 0,
            piece: Piece::Closed,
        }
    }

    /// The cutter is as before the first byte of a stream, in the room that it has: what was kept counts for nothing.
    pub fn restart(&mut self)
        ensures { WasFed [] self.new }
    {
        self.piece = Piece::Closed;
    }

    /// Takes bytes up to and including the first carriage return that ends a piece, or all, and says how many, and what
    /// the piece is that ended. What is left is fed again.
    pub fn feed(&mut self, piece: &[u8]) -> (usize, Option<Cut>)
        ensures count { result.0 ≤ length piece.now }
        ensures all { IfNone result.1 (result.0 ≡ length piece.now) }
        ensures some { OnSome result.1 (0 < result.0) }
        ensures feeds { (stream : List ℕ) → WasFed stream self.old → Feeds stream (take result.0 piece.now) result.1 self.new }
        ensures body { result.1 ≡ Some Cut.Whole → IsBody self.new.body }
        ensures empty { piece.now ≡ [] → self.new ≡ self.old }
    {
        let mut taken = 0;
        while taken < piece.len() {
            let run = run_length(&piece[taken..]);
            self.keep(&piece[taken..taken + run]);
            taken += run;
            if taken < piece.len() {
                let end = piece[taken];
                taken += 1;
                if end == b'\n' {
                    self.open();
                } else if let Some(cut) = self.close() {
                    return (taken, Some(cut));
                }
            }
        }
        (taken, None)
    }

    /// The body of the piece that `feed` answered last, where that was whole. It stands until the next call of `feed`.
    pub fn body(&self) -> &[u8]
        ensures { result.now ≡ self.now.body }
    {
        let piece = &self.bytes[..self.len];
        match self.piece {
            Piece::Closed if piece.len() > 8 => &piece[8..],
            _ => &[],
        }
    }

    // Takes bytes without an end.
    fn keep(&mut self, run: &[u8])
        requires { list_any is_end run.now ≡ false }
        ensures { (stream : List ℕ) → WasFed stream self.old → WasFed (stream ++ run.now) self.new }
    {
        if let Piece::Open = self.piece {
            if run.len() > PIECE_LIMIT - self.len {
                self.piece = Piece::Overlong;
            } else {
                let end = self.len + run.len();
                self.bytes[self.len..end].copy_from_slice(run);
                self.len = end;
            }
        }
    }

    // Takes a line feed.
    fn open(&mut self)
        ensures { (stream : List ℕ) → WasFed stream self.old → WasFed (stream ++ 10 ∷ []) self.new }
    {
        self.len = 0;
        self.piece = Piece::Open;
    }

    // Takes a carriage return.
    fn close(&mut self) -> Option<Cut>
        ensures feeds { (stream : List ℕ) → WasFed stream self.old → Feeds stream (13 ∷ []) result self.new }
        ensures body { result ≡ Some Cut.Whole → IsBody self.new.body }
    {
        let cut = self.cut()?;
        self.piece = Piece::Closed;
        Some(cut)
    }

    // What the open piece is, if it ends here.
    fn cut(&self) -> Option<Cut>
        ensures { result ≡ cut_of_kept self.now.kept }
    {
        match self.piece {
            Piece::Closed => None,
            Piece::Open => Some(Cut::of(&self.bytes[..self.len])),
            Piece::Overlong => Some(Cut::TooLong),
        }
    }
}

// How many bytes stand before the first line feed or carriage return.
fn run_length(bytes: &[u8]) -> usize
    ensures value { result ≡ position_or_len is_end bytes.now }
    ensures within { result ≤ length bytes.now }
{
    memchr2(b'\n', b'\r', bytes).unwrap_or(bytes.len())
}
