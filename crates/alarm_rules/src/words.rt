// Words of a line.
ghost use Rattle.std.specs.Prelude.{◌≡◌, ◌==◌, [], ◌∷◌, MatchOption, Some};
ghost use Rattle.std.specs.List.{position};
ghost use Rattle.std.specs.Option.{option_copied, option_map};
ghost use Rattle.alarm_rules.specs.SetupLines.{is_nil, optional, words_of};

use std::marker::Model;

/// The words of a line that are not read yet. One space stands between two words, so two spaces together, or one at an end, make a
/// word of no bytes. Contracts see them as a list.
#[derive(Drop)]
pub struct Words<'a> {
    rest: Option<&'a [u8]>,
}

impl<'a> Model for Words<'a> {
    ghost use Rattle.std.specs.Prelude.{ℕ, List};
    ghost use Rattle.alarm_rules.specs.WordsLeft.{words_left};

    ghost Value = { List (List ℕ) };

    ghost view = { λ w. words_left w.rest };
}

impl<'a> Words<'a> {
    /// All words of a line.
    pub fn of(line: &'a [u8]) -> Words<'a>
        ensures { result ≡ words_of line.now }
    {
        Words { rest: Some(line) }
    }

    /// Takes the first word off. None where none is left.
    pub fn next(&mut self) -> Option<&'a [u8]>
        ensures { MatchOption result ((self.old ≡ []) × (self.new ≡ [])) (λ word. self.old ≡ word.now ∷ self.new) }
    {
        let rest = self.rest?;
        match space(rest) {
            Some(end) => {
                self.rest = Some(&rest[end + 1..]);
                Some(&rest[..end])
            }
            None => {
                self.rest = None;
                Some(rest)
            }
        }
    }

    /// Takes an option off: where the first word is its name, that and the word behind it. `Some(None)` where no word or
    /// another one is first, and then nothing is taken. None where the name stands last.
    pub fn option(&mut self, name: &[u8]) -> Option<Option<&'a [u8]>>
        ensures { option_map (λ value. (option_copied value, self.new)) result ≡ optional name.now Some self.old }
    {
        let mut ahead = Words { rest: self.rest };
        match ahead.next() {
            Some(word) if word == name => {
                let value = ahead.next()?;
                self.rest = ahead.rest;
                Some(Some(value))
            }
            _ => Some(None),
        }
    }

    /// Whether no word is left.
    pub fn is_empty(&self) -> bool
        ensures { result ≡ is_nil self.now }
    {
        self.rest.is_none()
    }
}

/// Where the first space stands.
fn space(line: &[u8]) -> Option<usize>
    ensures { result ≡ position (λ b. b == 32) line.now }
{
    line.iter().position(|byte| *byte == b' ')
}
