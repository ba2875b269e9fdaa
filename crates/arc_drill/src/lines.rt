// A few lines of text in a fixed field.
ghost use Rattle.std.specs.Prelude.{◌≡◌, ◌+◌, ◌≤◌, [], ◌++◌, length, decimal, ℕ};

use itoa::Buffer;
use std::marker::Model;

/// Lines of at most 256 bytes in all. Contracts see them as the list of their bytes.
#[derive(Drop)]
pub(crate) struct Lines {
    bytes: [u8; 256],
    len: usize,
}

impl Model for Lines {
    ghost use Rattle.std.specs.Prelude.{ℕ, ◌≤◌, List, take};

    ghost Value = { List ℕ };

    ghost view = { λ l. take l.len l.bytes };

    ghost invariant = { λ l. l.len ≤ 256 };
}

impl Lines {
    /// No lines.
    pub(crate) fn new() -> Lines
        ensures { result ≡ [] }
    {
        Lines {
            bytes: [0; 256],
            len: 0,
        }
    }

    /// Takes all of them away. Their room is used again.
    pub(crate) fn clear(&mut self)
        ensures { self.new ≡ [] }
    {
        self.len = 0;
    }

    /// Their bytes.
    pub(crate) fn bytes(&self) -> &[u8]
        ensures { result.now ≡ self.now }
    {
        &self.bytes[..self.len]
    }

    /// Puts bytes behind those that stand there.
    pub(crate) fn put(&mut self, bytes: &[u8])
        requires { length self.old + length bytes.now ≤ 256 }
        ensures text { self.new ≡ self.old ++ bytes.now }
        ensures size { length self.new ≡ length self.old + length bytes.now }
    {
        let end = self.len + bytes.len();
        self.bytes[self.len..end].copy_from_slice(bytes);
        self.len = end;
    }

    /// Puts a number in decimal.
    pub(crate) fn put_number(&mut self, number: u64)
        requires { length self.old + 20 ≤ 256 }
        ensures text { self.new ≡ self.old ++ decimal number }
        ensures size { length self.new ≤ length self.old + 20 }
    {
        let mut buffer = Buffer::new();
        self.put(buffer.format(number).as_bytes());
    }
}
