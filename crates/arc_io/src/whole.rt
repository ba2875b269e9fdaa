// Reading and writing over many calls.
ghost use Rattle.std.specs.Prelude.{◌≡◌, ◌<◌, ◌≤◌, List, ℕ, false, OnErr, IfOk, length, vec_len};
ghost use Rattle.std.specs.Io.KnownBytes.{prepend_known};
ghost use Rattle.arc_io.specs.Causes.{Rose};
ghost use Rattle.arc_io.specs.Told.{IsReadOut, OnlyReads, Puts};

use crate::{Failed, Sink, Source};
use std::alloc::Global;

/// Writes all of the bytes, in as many calls as the sink asks for.
pub fn put<K: Sink>(sink: &mut K, bytes: &[u8]) -> Result<(), Failed>
    ensures { Puts (K.seen sink.old) (K.seen sink.new) result bytes.now }
{
    let mut done = 0;
    while done < bytes.len() {
        done += sink.write(&bytes[done..])?;
    }
    Ok(())
}

// How many bytes a call of `read` is asked for at most.
const PIECE: usize = 4096;

/// Why the whole input was not read.
#[derive(Clone, Copy, Debug, PartialEq, Eq)]
pub enum ReadEnd {
    /// A read failed.
    Failed,
    /// Want of memory.
    Memory,
}

/// Reads until the input ends, or until `limit` bytes are there, whichever comes first. No byte past
/// the limit is taken from the source.
#[tactic(auto, using(crate::proofs::KnownMore::known_taken))]
pub fn read_all<S: Source>(alloc: Global, source: &mut S, limit: usize) -> Result<Vec<u8>, ReadEnd>
    requires { (S.seen source.old).ended ≡ false }
    ensures all { IfOk result (λ v. (S.seen source.old).left ≡ prepend_known v.items (S.seen source.new).left) }
    ensures limit { IfOk result (λ v. vec_len v ≤ limit) }
    ensures ended { IfOk result (λ v. vec_len v < limit → IsReadOut (S.seen source.new)) }
    ensures not_ended { IfOk result (λ v. limit ≤ vec_len v → (S.seen source.new).ended ≡ false) }
    ensures part { OnErr result ((bytes : List ℕ) × (length bytes ≤ limit)
        × ((S.seen source.old).left ≡ prepend_known bytes (S.seen source.new).left)) }
    ensures part_not_ended { OnErr result ((S.seen source.new).ended ≡ false) }

    // A failed read is the one cause of Failed.
    ensures failed { result ≡ Err ReadEnd.Failed → Rose (S.seen source.old).read_faults (S.seen source.new).read_faults }
    ensures later { (S.seen source.old).read_faults ≤ (S.seen source.new).read_faults }

    ensures others { OnlyReads (S.seen source.old) (S.seen source.new) }
{
    let mut bytes = Vec::new(alloc);
    let mut piece = [0; PIECE];
    while bytes.len() < limit {
        let room = piece.len().min(limit - bytes.len());
        let Ok(count) = source.read(&mut piece[..room]) else {
            return Err(ReadEnd::Failed);
        };
        if count == 0 {
            return Ok(bytes);
        }
        let Ok(()) = bytes.extend_from_slice(&piece[..count]) else {
            return Err(ReadEnd::Memory);
        };
    }
    Ok(bytes)
}
