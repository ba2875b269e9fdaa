// The text of a row.
ghost use Rattle.std.specs.Prelude.{◌≡◌, ◌<◌, ◌≤◌, ◌++◌, ◌∷◌, [], true, length, decimal};
ghost use Rattle.desk_screen.specs.Plain.{is_plain};
ghost use Rattle.screen_page.specs.Texts.{age, are_plain, with_column, with_text};

use crate::line::Line;
use crate::tone::Tone;
use desk_screen::{front_of, plain_byte};
use itoa::Buffer;
use std::marker::Model;

/// The text of a row, of at most 160 bytes, each of them printable. Contracts see the list of its bytes.
#[derive(Drop)]
pub struct Strip {
    bytes: [u8; 160],
    len: usize,
}

impl Model for Strip {
    ghost use Rattle.std.specs.Prelude.{ℕ, ◌≤◌, ◌≡◌, List, take, true};
    ghost use Rattle.screen_page.specs.Texts.{are_plain};

    ghost Value = { List ℕ };

    ghost view = { λ s. take s.len s.bytes };

    ghost invariant = { λ s. (s.len ≤ 160) × (are_plain (take s.len s.bytes) ≡ true) };
}

impl Strip {
    /// No text.
    pub fn new() -> Strip
        ensures { result ≡ [] }
    {
        Strip {
            bytes: [b' '; 160],
            len: 0,
        }
    }

    /// Its bytes, which are printable, whatever was put.
    pub fn bytes(&self) -> &[u8]
        ensures value { result.now ≡ self.now }
        ensures short { length result.now ≤ 160 }
        ensures plain { are_plain result.now ≡ true }
    {
        &self.bytes[..self.len]
    }

    // Puts a printable byte, where there is room.
    fn push(&mut self, byte: u8)
        requires room { length self.old < 160 }
        requires plain { is_plain byte ≡ true }
        ensures { self.new ≡ self.old ++ byte ∷ [] }
    {
        self.bytes[self.len] = byte;
        self.len += 1;
    }

    /// Puts a text behind the one that stands there, with a question mark for each byte that a terminal would not print. What is more
    /// than 160 bytes is left out.
    #[tactic(auto, unfolding(crate::specs::Texts::with_text))]
    pub fn put(&mut self, text: &[u8])
        ensures { self.new ≡ with_text self.old text.now }
    {
        let front = front_of(text, 160 - self.bytes().len());
        for byte in front {
            self.push(plain_byte(*byte));
        }
    }

    /// Puts a number in decimal.
    pub fn put_number(&mut self, number: u64)
        ensures { self.new ≡ with_text self.old (decimal number) }
    {
        let mut buffer = Buffer::new();
        self.put(buffer.format(number).as_bytes());
    }

    /// Puts seconds in words: up to a minute, up to an hour, and more.
    pub fn put_age(&mut self, seconds: u64)
        ensures { self.new ≡ with_text self.old (age seconds) }
    {
        self.put(age(seconds).bytes());
    }

    /// Puts spaces up to a column, where it lies ahead.
    #[tactic(auto, unfolding(crate::specs::Texts::with_column))]
    pub fn put_to(&mut self, column: usize)
        ensures { self.new ≡ with_column self.old column }
    {
        let ahead = column.saturating_sub(self.bytes().len());
        self.put(front_of(&SPACES, ahead));
    }
}

/// A row of one text.
pub(crate) fn strip_of(text: &[u8]) -> Strip
    ensures { result ≡ with_text [] text.now }
{
    let mut strip = Strip::new();
    strip.put(text);
    strip
}

// Seconds in words.
#[tactic(auto, unfolding(crate::specs::Texts::age))]
fn age(seconds: u64) -> Line
    ensures { result ≡ age seconds }
{
    let mut line = Line::new();
    if seconds < 60 {
        line.put_number(seconds);
        line.put(b" s");
    } else if seconds < 3600 {
        line.put_number(seconds / 60);
        line.put(b" min");
    } else {
        line.put_number(seconds / 3600);
        line.put(b" h");
    }
    line
}

const SPACES: [u8; 160] = [b' '; 160];
