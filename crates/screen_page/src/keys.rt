// The keys of a terminal, and what it answers.
ghost use Rattle.std.specs.Prelude.{◌≡◌, ◌==◌, ◌<◌, ◌≤◌, ◌++◌, ◌∷◌, [], length};
ghost use Rattle.std.specs.List.{position};
ghost use Rattle.std.specs.Option.{option_map};
ghost use Rattle.screen_page.specs.Keys.{corner_of, goes_on, parted, pending, pressed, rested, sized};

use desk_said::number;
use std::marker::Model;

/// What bytes of a terminal say.
#[derive(Clone, Copy, PartialEq, Eq)]
pub enum Pressed {
    Nothing,
    Key(u8),
    /// The terminal tells where its cursor stands, which was sent to the last corner: so many rows and columns.
    Corner { rows: u16, columns: u16 },
}

/// Reads keys from the bytes of a terminal. Control sequences of ECMA-48, as of arrows and function keys, are no keys: their bytes never
/// reach the screen. Contracts see the bytes of the sequence that has not ended, at most 16 of them.
#[derive(Drop)]
pub struct KeyReader {
    bytes: [u8; 16],
    len: usize,
}

impl Model for KeyReader {
    ghost use Rattle.std.specs.Prelude.{ℕ, List, take, ◌≤◌};

    ghost Value = { List ℕ };

    ghost view = { λ k. take k.len k.bytes };

    ghost invariant = { λ k. k.len ≤ 16 };
}

// Whether a byte goes on with a sequence.
fn goes_on(before: &[u8], byte: u8) -> bool
    ensures { result ≡ goes_on before.now byte }
{
    match before {
        [] => byte == 27,
        [_] => byte == b'[' || byte == b'O',
        [_, second, ..] => *second == b'[' && !(64..=126).contains(&byte),
    }
}

// Where the first semicolon stands.
fn semicolon(text: &[u8]) -> Option<usize>
    ensures { result ≡ position (λ b. b == 59) text.now }
{
    text.iter().position(|byte| *byte == b';')
}

// What stands before the first semicolon, and what behind it.
fn parted(text: &[u8]) -> Option<(&[u8], &[u8])>
    ensures { option_map (λ p. (p.0.now, p.1.now)) result ≡ parted text.now }
{
    match semicolon(text) {
        Some(place) => Some((&text[..place], &text[place + 1..])),
        None => None,
    }
}

fn sized(rows: Option<u64>, columns: Option<u64>) -> Pressed
    ensures { result ≡ sized rows columns }
{
    match (rows, columns) {
        (Some(rows), Some(columns)) if rows <= 9999 && columns <= 9999 => Pressed::Corner {
            rows: rows as u16,
            columns: columns as u16,
        },
        _ => Pressed::Nothing,
    }
}

// The place of the cursor that the numbers of a sequence tell.
fn corner(text: &[u8]) -> Pressed
    ensures { result ≡ corner_of (parted text.now) }
{
    match parted(text) {
        Some((rows, columns)) => sized(number(rows), number(columns)),
        None => Pressed::Nothing,
    }
}

// What a byte says behind those of a sequence that has not ended.
fn meant(before: &[u8], byte: u8) -> Pressed
    ensures { result ≡ pressed before.now byte }
{
    match before {
        [] if byte == 27 => Pressed::Nothing,
        [] => Pressed::Key(byte),
        [_, b'[', ..] if byte == b'R' => corner(&before[2..]),
        _ => Pressed::Nothing,
    }
}

impl KeyReader {
    /// Before the first byte.
    pub fn new() -> KeyReader
        ensures { result ≡ [] }
    {
        KeyReader {
            bytes: [0; 16],
            len: 0,
        }
    }

    fn bytes(&self) -> &[u8]
        ensures { result.now ≡ self.now }
    {
        &self.bytes[..self.len]
    }

    // Puts a byte last, where there is room.
    fn keep(&mut self, byte: u8)
        requires { length self.old < 16 }
        ensures { self.new ≡ self.old ++ byte ∷ [] }
    {
        self.bytes[self.len] = byte;
        self.len += 1;
    }

    // The sequence goes on with a byte, or has ended.
    fn go_on(&mut self, byte: u8)
        ensures { self.new ≡ pending self.old byte }
    {
        if !goes_on(self.bytes(), byte) {
            self.len = 0;
        } else if self.bytes().len() < 16 {
            self.keep(byte);
        }
    }

    /// Takes a byte.
    pub fn feed(&mut self, byte: u8) -> Pressed
        ensures said { result ≡ pressed self.old byte }
        ensures left { self.new ≡ pending self.old byte }
    {
        let said = meant(self.bytes(), byte);
        self.go_on(byte);
        said
    }

    /// Nothing came for a while: an escape alone is a key, and no sequence goes on.
    pub fn rest(&mut self) -> Pressed
        ensures said { result ≡ rested self.old }
        ensures none { self.new ≡ [] }
    {
        let is_alone = self.bytes().len() == 1;
        self.len = 0;
        if is_alone {
            Pressed::Key(27)
        } else {
            Pressed::Nothing
        }
    }
}
