// The file of sites.
ghost use Rattle.std.specs.Prelude.{◌≡◌, ◌==◌, ◌≤◌, [], ◌∷◌, length, IfSome, MatchOption};
ghost use Rattle.std.specs.List.{position};
ghost use Rattle.std.specs.Option.{option_map};
ghost use Rattle.screen_page.specs.Sites.{behind, holder_of, line_with, lines_of, site_of};

use crate::line::Line;
use std::marker::Model;

/// The text of a file of sites: lines `site ACCOUNT TEXT` and `keyholder ACCOUNT N NAME PHONE`, where N is the keyholder's number from 1
/// to 4. A line of another form, or behind another one of the same beginning, says nothing. Contracts see its bytes.
#[derive(Drop)]
pub struct Sites {
    text: Vec<u8>,
}

impl Model for Sites {
    ghost use Rattle.std.specs.Prelude.{ℕ, List};

    ghost Value = { List ℕ };

    ghost view = { λ s. s.text.items };
}

// The lines of a text that are not read yet. Contracts see them as a list.
#[derive(Drop)]
struct Lines<'a> {
    rest: Option<&'a [u8]>,
}

impl<'a> Model for Lines<'a> {
    ghost use Rattle.std.specs.Prelude.{ℕ, List};
    ghost use Rattle.screen_page.specs.Sites.{lines_left};

    ghost Value = { List (List ℕ) };

    ghost view = { λ l. lines_left l.rest };
}

impl<'a> Lines<'a> {
    // All lines of a text.
    fn of(text: &'a [u8]) -> Lines<'a>
        ensures { result ≡ lines_of text.now }
    {
        Lines { rest: Some(text) }
    }

    // Takes the first line off. None where none is left.
    fn next(&mut self) -> Option<&'a [u8]>
        ensures { MatchOption result ((self.old ≡ []) × (self.new ≡ [])) (λ line. self.old ≡ line.now ∷ self.new) }
    {
        let rest = self.rest?;
        match feed(rest) {
            Some(end) => {
                self.rest = Some(&rest[end + 1..]);
                Some(&rest[..end])
            }
            None => {
                self.rest = None;
                Some(rest)
            }
        }
    }
}

// Where the first line feed stands.
fn feed(text: &[u8]) -> Option<usize>
    ensures { result ≡ position (λ b. b == 10) text.now }
{
    text.iter().position(|byte| *byte == b'\n')
}

// The first line that begins with these bytes.
fn line_with<'a>(front: &[u8], text: &'a [u8]) -> Option<&'a [u8]>
    ensures found { option_map (λ line. line.now) result ≡ line_with front.now (lines_of text.now) }
    ensures long { IfSome result (λ line. length front.now ≤ length line.now) }
{
    let mut lines = Lines::of(text);
    while let Some(line) = lines.next() {
        if line.starts_with(front) {
            return Some(line);
        }
    }
    None
}

// What stands behind these bytes in the first line that begins with them.
fn behind<'a>(text: &'a [u8], front: &[u8]) -> Option<&'a [u8]>
    ensures { option_map (λ found. found.now) result ≡ behind text.now front.now }
{
    match line_with(front, text) {
        Some(line) => Some(&line[front.len()..]),
        None => None,
    }
}

impl Sites {
    /// The sites of this text.
    pub fn of(text: Vec<u8>) -> Sites
        ensures { result ≡ text.items }
    {
        Sites { text }
    }

    /// What is said of the site of an account. None where nothing is.
    #[tactic(auto, unfolding(crate::specs::Sites::site_of))]
    pub fn site(&self, account: &[u8]) -> Option<&[u8]>
        requires { length account.now ≤ 32 }
        ensures { option_map (λ found. found.now) result ≡ site_of self.now account.now }
    {
        let mut front = Line::new();
        front.put(b"site ");
        front.put(account);
        front.put(b" ");
        behind(&self.text, front.bytes())
    }

    /// The name and the telephone number of a keyholder of an account. None where they are not said.
    #[tactic(auto, unfolding(crate::specs::Sites::holder_of))]
    pub fn holder(&self, account: &[u8], number: u8) -> Option<&[u8]>
        requires { length account.now ≤ 32 }
        ensures { option_map (λ found. found.now) result ≡ holder_of self.now account.now number }
    {
        let mut front = Line::new();
        front.put(b"keyholder ");
        front.put(account);
        front.put(b" ");
        front.put_number(u64::from(number));
        front.put(b" ");
        behind(&self.text, front.bytes())
    }
}
