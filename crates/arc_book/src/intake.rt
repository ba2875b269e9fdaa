// Bytes that are read in large pieces, and taken in small ones.
ghost use Rattle.std.specs.Prelude.{◌≡◌, ◌≤◌, ◌<◌, [], ℕ, List, false, true, length, take, drop, OnErr, IfOk, IfSome, vec_len};
ghost use Rattle.std.specs.Io.KnownBytes.{prepend_known};
ghost use Rattle.arc_io.specs.Causes.{Rose};
ghost use Rattle.arc_io.specs.Told.{OnlyReads};
ghost use Rattle.arc_book.specs.Tapes.{ahead};

use arc_data::Memory;
use arc_io::{ReadEnd, Source};
use std::alloc::Global;
use std::marker::Model;

// How many bytes are read at a time.
const PIECE: usize = 65_536;

/// Bytes that were read and not taken yet. Contracts see their list.
#[derive(Drop)]
pub(crate) struct Intake {
    room: Vec<u8>,
    from: usize,
    to: usize,
}

impl Model for Intake {
    ghost use Rattle.std.specs.Prelude.{◌≡◌, ◌≤◌, ℕ, List, take, drop, vec_len};

    ghost Value = { List ℕ };

    ghost view = { λ i. drop i.from (take i.to i.room.items) };

    ghost invariant = { λ i. (i.from ≤ i.to) × (i.to ≤ vec_len i.room) × (vec_len i.room ≡ 65536) };
}

impl Intake {
    /// No bytes. The error is want of memory.
    pub(crate) fn new(alloc: Global) -> Result<Intake, Memory>
        ensures { IfOk result (λ i. i ≡ []) }
    {
        match vec![in alloc; 0; PIECE] {
            Ok(room) => Ok(Intake {
                room,
                from: 0,
                to: 0,
            }),
            Err(_) => Err(Memory),
        }
    }

    /// The bytes that were not taken yet, at most so many of them.
    pub(crate) fn front(&self, most: usize) -> &[u8]
        ensures { result.now ≡ take most self.now }
    {
        let count = most.min(self.to - self.from);
        &self.room[self.from..self.from + count]
    }

    /// Takes the first bytes.
    pub(crate) fn skip(&mut self, count: usize)
        requires { count ≤ length self.old }
        ensures { self.new ≡ drop count self.old }
    {
        self.from += count;
    }

    /// Reads a piece where all bytes were taken. False where the input has ended. The error is Failed.
    pub(crate) fn more<S: Source>(&mut self, source: &mut S) -> Result<bool, ReadEnd>
        requires { (S.seen source.old).ended ≡ false }
        ensures same { ahead self.new (S.seen source.new).left ≡ ahead self.old (S.seen source.old).left }
        ensures some { IfOk result (λ some. some ≡ true → (0 < length self.new) × ((S.seen source.new).ended ≡ false)) }
        ensures none { IfOk result (λ some. some ≡ false → IfSome (ahead self.old (S.seen source.old).left) (λ rest. rest ≡ [])) }
        ensures failed { OnErr result (Rose (S.seen source.old).read_faults (S.seen source.new).read_faults) }
        ensures only { OnErr result (result ≡ Err ReadEnd.Failed) }
        ensures later { (S.seen source.old).read_faults ≤ (S.seen source.new).read_faults }
        ensures others { OnlyReads (S.seen source.old) (S.seen source.new) }
    {
        if self.from < self.to {
            return Ok(true);
        }
        self.from = 0;
        self.to = 0;
        let Ok(count) = source.read(&mut self.room) else {
            return Err(ReadEnd::Failed);
        };
        self.to = count;
        Ok(count > 0)
    }

    /// Takes the next so many bytes into `out`, in the place of what stands there. False where fewer are there.
    pub(crate) fn fill<S: Source>(
        &mut self,
        source: &mut S,
        out: &mut Vec<u8>,
        count: usize,
    ) -> Result<bool, ReadEnd>
        requires { (S.seen source.old).ended ≡ false }
        ensures full { IfOk result (λ full. full ≡ true → (ahead self.old (S.seen source.old).left
            ≡ prepend_known out.new.items (ahead self.new (S.seen source.new).left)) × (vec_len out.new ≡ count) × ((S.seen source.new).ended ≡ false)) }
        ensures short { IfOk result (λ full. full ≡ false → IfSome (ahead self.old (S.seen source.old).left) (λ rest. length rest < count)) }
        ensures failed { result ≡ Err ReadEnd.Failed → Rose (S.seen source.old).read_faults (S.seen source.new).read_faults }
        ensures later { (S.seen source.old).read_faults ≤ (S.seen source.new).read_faults }
        ensures others { OnlyReads (S.seen source.old) (S.seen source.new) }
    {
        out.clear();
        'pieces: while out.len() < count {
            if !self.more(source)? {
                return Ok(false);
            }
            let piece = self.front(count - out.len());
            let taken = piece.len();
            let Ok(()) = out.extend_from_slice(piece) else {
                return Err(ReadEnd::Memory);
            };
            self.skip(taken);
        }
        Ok(true)
    }
}
