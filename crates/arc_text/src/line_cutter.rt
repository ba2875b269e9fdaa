// The lines of a stream that comes bit by bit.
ghost use Rattle.std.specs.Prelude.{◌≡◌, ◌<◌, ◌≤◌, ◌++◌, ◌∷◌, [], ℕ, List, length, take, IfNone, OnSome, false};
ghost use Rattle.std.specs.List.{list_any, position};
ghost use Rattle.std.specs.Str.Lines.{strip_carriage_return};
ghost use Rattle.arc_text.specs.Lines.{is_feed};
ghost use Rattle.arc_text.specs.LineCutting.{WasFed, Feeds, Finishes};
ghost use Rattle.arc_text.specs.LineHolding.{reached};

use crate::line_cut::LineCut;
use std::marker::Model;

// How many bytes a line has at most.
const ROOM: usize = 16384;

// How far the open line has come.
#[derive(Clone, Copy)]
enum Reach {
    /// Within the limit.
    Short,
    /// At the limit, with one carriage return behind it, which a line feed would drop.
    Returned,
    /// Too long.
    Overlong,
}

/// Cuts a stream of bytes, fed in any parts, into its lines, which end with a line feed. It keeps 16,384 bytes at most, however
/// long a line is, and takes no memory.
#[derive(Drop)]
pub struct LineCutter {
    bytes: [u8; ROOM],
    limit: usize,
    len: usize,
    end: usize,
    reach: Reach,
}

impl Model for LineCutter {
    ghost use Rattle.std.specs.Prelude.{take};
    ghost use Rattle.arc_text.specs.LineCutting.{LineCutterValue};
    ghost use Rattle.arc_text.specs.LineHolding.{kept_in, IsHeld};

    ghost Value = { LineCutterValue };

    ghost view = { λ c. record { limit = c.limit; kept = kept_in c.reach c.len c.bytes; line = take c.end c.bytes } };

    ghost invariant = { λ c. IsHeld c.limit c.len c.end };
}

impl LineCutter {
    /// A cutter before the first byte of a stream, for lines of at most so many bytes (16,384 or fewer).
    pub fn new(limit: usize) -> LineCutter
        requires { limit ≤ 16384 }
        ensures fed { WasFed [] result }
        ensures limit { result.limit ≡ limit }
    {
        LineCutter {
            bytes: [0; ROOM],
            limit,
            len: 0,
            end: 0,
            reach: Reach::Short,
        }
    }

    /// Takes bytes up to and including the first line feed, or all, and says how many, and what the line is that ended. What is
    /// left is fed again.
    pub fn feed(&mut self, piece: &[u8]) -> (usize, Option<LineCut>)
        ensures count { result.0 ≤ length piece.now }
        ensures all { IfNone result.1 (result.0 ≡ length piece.now) }
        ensures some { OnSome result.1 (0 < result.0) }
        ensures feeds { (stream : List ℕ) → WasFed stream self.old → Feeds stream (take result.0 piece.now) result.1 self.new }
        ensures limit { self.new.limit ≡ self.old.limit }
    {
        match first_feed(piece) {
            Some(at) => {
                self.keep(&piece[..at]);
                (at + 1, Some(self.close()))
            }
            None => {
                self.keep(piece);
                (piece.len(), None)
            }
        }
    }

    /// Ends the stream: what was fed behind the last line feed is a line too, where it is not empty. A carriage return at its
    /// end is kept. Then another stream may be fed.
    pub fn finish(&mut self) -> Option<LineCut>
        ensures finishes { (stream : List ℕ) → WasFed stream self.old → Finishes stream result self.new }
        ensures limit { self.new.limit ≡ self.old.limit }
    {
        match (self.reach, self.len) {
            (Reach::Short, 0) => None,
            (Reach::Short, len) => {
                self.end = len;
                self.len = 0;
                Some(LineCut::Whole)
            }
            _ => {
                self.end = 0;
                self.len = 0;
                self.reach = Reach::Short;
                Some(LineCut::TooLong)
            }
        }
    }

    /// The line that `feed` or `finish` told last, without its line feed and without the one carriage return before that. It
    /// stands until bytes are fed, and is empty where the line was too long.
    pub fn line(&self) -> &[u8]
        ensures { result.now ≡ self.now.line }
    {
        &self.bytes[..self.end]
    }

    // Takes bytes without a line feed.
    fn keep(&mut self, run: &[u8])
        requires { list_any is_feed run.now ≡ false }
        ensures fed { (stream : List ℕ) → WasFed stream self.old → WasFed (stream ++ run.now) self.new }
        ensures limit { self.new.limit ≡ self.old.limit }
    {
        match self.reach {
            Reach::Short => {
                let room = self.limit - self.len;
                let (front, more) = run.split_at(room.min(run.len()));
                let end = self.len + front.len();
                self.bytes[self.len..end].copy_from_slice(front);
                self.len = end;
                self.reach = reached(more);
            }
            Reach::Returned if run.is_empty() => {}
            Reach::Returned => self.reach = Reach::Overlong,
            Reach::Overlong => {}
        }
    }

    // Takes a line feed.
    fn close(&mut self) -> LineCut
        ensures feeds { (stream : List ℕ) → WasFed stream self.old → Feeds stream (10 ∷ []) (Some result) self.new }
        ensures limit { self.new.limit ≡ self.old.limit }
    {
        match self.reach {
            Reach::Short => {
                self.end = stripped(&self.bytes[..self.len]).len();
                self.len = 0;
                LineCut::Whole
            }
            Reach::Returned => {
                self.end = self.len;
                self.len = 0;
                self.reach = Reach::Short;
                LineCut::Whole
            }
            Reach::Overlong => {
                self.end = 0;
                self.len = 0;
                self.reach = Reach::Short;
                LineCut::TooLong
            }
        }
    }
}

// Where the first line feed stands.
fn first_feed(bytes: &[u8]) -> Option<usize>
    ensures { result ≡ position is_feed bytes.now }
{
    bytes.iter().position(|byte| *byte == b'\n')
}

// How far a line has come, of which these bytes stand behind the limit.
fn reached(more: &[u8]) -> Reach
    ensures { result ≡ reached more.now }
{
    match more {
        [] => Reach::Short,
        [b'\r'] => Reach::Returned,
        _ => Reach::Overlong,
    }
}

// The line without the one carriage return at its end.
fn stripped(line: &[u8]) -> &[u8]
    ensures { result.now ≡ strip_carriage_return line.now }
{
    match line {
        [front @ .., b'\r'] => front,
        _ => line,
    }
}
