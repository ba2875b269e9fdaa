// Text that may be shown.
ghost use Rattle.std.specs.Prelude.{◌≡◌, ◌<◌, ◌≤◌, ◌++◌, ◌∷◌, [], true, length, take};
ghost use Rattle.desk_screen.specs.Plain.{is_plain, plain, plain_byte};

use std::marker::Model;

/// A text of at most 160 printable bytes, in a field of its own. Contracts see the list of its bytes.
#[derive(Drop)]
pub struct Plain {
    bytes: [u8; 160],
    len: usize,
}

impl Model for Plain {
    ghost use Rattle.std.specs.Prelude.{ℕ, List, take, ◌≤◌};

    ghost Value = { List ℕ };

    ghost view = { λ p. take p.len p.bytes };

    ghost invariant = { λ p. p.len ≤ 160 };
}

/// A byte as it is shown.
pub fn plain_byte(byte: u8) -> u8
    ensures shown { result ≡ plain_byte byte }
    ensures plain { is_plain result ≡ true }
{
    if (32..=126).contains(&byte) {
        byte
    } else {
        b'?'
    }
}

/// At most so many bytes of a text.
pub fn front_of(text: &[u8], most: usize) -> &[u8]
    ensures front { result.now ≡ take most text.now }
    ensures short { length result.now ≤ most }
{
    if text.len() > most {
        &text[..most]
    } else {
        text
    }
}

impl Plain {
    fn new() -> Plain
        ensures { result ≡ [] }
    {
        Plain {
            bytes: [0; 160],
            len: 0,
        }
    }

    // Puts a byte last.
    fn push(&mut self, byte: u8)
        requires { length self.old < 160 }
        ensures { self.new ≡ self.old ++ byte ∷ [] }
    {
        self.bytes[self.len] = byte;
        self.len += 1;
    }

    /// The first 160 bytes of a text, with a question mark for each that a terminal would not print.
    pub fn of(text: &[u8]) -> Plain
        ensures { result ≡ plain text.now }
    {
        let front = front_of(text, 160);
        let mut plain = Plain::new();
        for byte in front {
            plain.push(plain_byte(*byte));
        }
        plain
    }

    /// Its bytes.
    pub fn bytes(&self) -> &[u8]
        ensures value { result.now ≡ self.now }
        ensures short { length result.now ≤ 160 }
    {
        &self.bytes[..self.len]
    }
}
