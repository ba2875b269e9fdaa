// A word of a command.
ghost use Rattle.std.specs.Prelude.{◌≡◌, ◌≤◌, ◌↔◌, length, codes, IfSome, IsSome};

use std::marker::Model;

/// A word of at most 64 bytes in a field of its own. Contracts see it as the list of its bytes.
#[derive(Drop)]
pub struct Word {
    bytes: [u8; 64],
    len: usize,
}

impl Model for Word {
    ghost use Rattle.std.specs.Prelude.{◌≤◌, ℕ, List, take};

    ghost Value = { List ℕ };

    ghost view = { λ w. take w.len w.bytes };

    ghost invariant = { λ w. w.len ≤ 64 };
}

impl Word {
    /// The word of these bytes. None exactly where there are more than 64.
    pub fn of(bytes: &[u8]) -> Option<Word>
        ensures fits { IsSome result ↔ (length bytes.now ≤ 64) }
        ensures value { IfSome result (λ word. word ≡ bytes.now) }
    {
        if bytes.len() > 64 {
            return None;
        }
        let mut field = [0; 64];
        field[..bytes.len()].copy_from_slice(bytes);
        Some(Word {
            bytes: field,
            len: bytes.len(),
        })
    }

    /// The word `?`, which stands for one that is too long, and asks for nothing.
    pub fn question() -> Word
        ensures { result ≡ codes "?" }
    {
        let mut bytes = [0; 64];
        bytes[0] = b'?';
        Word { bytes, len: 1 }
    }

    /// Its bytes.
    pub(crate) fn bytes(&self) -> &[u8]
        ensures { result.now ≡ self.now }
    {
        &self.bytes[..self.len]
    }
}
