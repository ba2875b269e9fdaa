// Bytes of any length.
ghost use Rattle.std.specs.Prelude.{◌≡◌, ◌<◌, [], length, slice_index, IfOk};

use std::alloc::Global;
use std::marker::Model;

/// Want of memory: an allocation was refused, and what was asked for was not done.
#[derive(Clone, Copy, Debug, PartialEq, Eq)]
pub struct Memory;

/// Bytes on the heap. Contracts see them as a list.
#[derive(Drop)]
pub struct Blob {
    bytes: Vec<u8>,
}

impl Model for Blob {
    ghost use Rattle.std.specs.Prelude.{ℕ, List};

    ghost Value = { List ℕ };

    ghost view = { λ b. b.bytes.items };
}

impl Blob {
    /// No bytes. Takes no memory.
    pub fn new(alloc: Global) -> Blob
        ensures { result ≡ [] }
    {
        Blob {
            bytes: Vec::new(alloc),
        }
    }

    /// A copy of the bytes. The error is want of memory.
    pub fn of(alloc: Global, bytes: &[u8]) -> Result<Blob, Memory>
        ensures { IfOk result (λ blob. blob ≡ bytes.now) }
    {
        match bytes.to_vec(alloc) {
            Ok(bytes) => Ok(Blob { bytes }),
            Err(_) => Err(Memory),
        }
    }

    /// The bytes of a vector, which is taken as it is, without memory.
    pub fn of_vec(bytes: Vec<u8>) -> Blob
        ensures { result ≡ bytes.items }
    {
        Blob { bytes }
    }

    /// Its bytes.
    pub fn bytes(&self) -> &[u8]
        ensures { result.now ≡ self.now }
    {
        &self.bytes
    }

    /// How many bytes there are.
    pub fn count(&self) -> usize
        ensures { result ≡ length self.now }
    {
        self.bytes.len()
    }

    /// The byte at a place below the count.
    pub fn at(&self, i: usize) -> u8
        requires { i < length self.now }
        ensures { result ≡ slice_index self.now i }
    {
        self.bytes[i]
    }
}
