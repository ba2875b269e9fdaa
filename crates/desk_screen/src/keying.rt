// What becomes of what was typed.
ghost use Rattle.std.specs.Prelude.{◌≡◌, ◌≤◌, ℕ, List, [], Bool, Option, None, if◌then◌else◌};
ghost use Rattle.arc_data.specs.Digits.{is_name_byte};
ghost use Rattle.desk_said.specs.declared.said.Said.{Said};
ghost use Rattle.desk_screen.specs.Inputs.{Key, Answer};
ghost use Rattle.desk_screen.specs.Steps.{IsTyped};
ghost use Rattle.desk_screen.specs.Typing.{is_text, longer, name_key, named, room, tells_login};

use crate::asking::is_enter;
use crate::keyboard::Keyboard;
use alarm_rules::{is_name, is_pin};
use arc_data::Txt;
use desk_said::Said;

fn is_name_byte(key: u8) -> bool
    ensures { result ≡ is_name_byte key }
{
    key.is_ascii_alphanumeric() || key == b'.' || key == b'_' || key == b'-'
}

fn is_text(user: &Option<Txt>, name: &Option<Txt>, key: u8) -> bool
    ensures { result ≡ is_text user.now name.now key }
{
    match user {
        Some(_) => name.is_none() && key.is_ascii_digit(),
        None => is_name_byte(key),
    }
}

// How many bytes may be typed.
fn room(user: &Option<Txt>) -> usize
    ensures value { result ≡ room user.now }
    ensures most { result ≤ 20 }
{
    match user {
        Some(_) => 20,
        None => 16,
    }
}

// The text with a byte more, of at most so many.
fn longer(most: usize, text: &Txt, key: u8) -> Txt
    requires { most ≤ 20 }
    ensures { result ≡ longer most text.now key }
{
    let len = text.bytes().len();
    if len >= most {
        return *text;
    }
    let mut bytes = [key; 21];
    bytes[..len].copy_from_slice(text.bytes());
    match Txt::of(&bytes[..len + 1]) {
        Some(text) => text,
        None => *text,
    }
}

fn typed_after(user: &Option<Txt>, name: &Option<Txt>, typed: &Txt, key: u8) -> Txt
    ensures { result ≡ (if is_text user.now name.now key then longer (room user.now) typed.now key else []) }
{
    if is_text(user, name, key) {
        longer(room(user), typed, key)
    } else {
        Txt::empty()
    }
}

fn named(typed: &Txt, name: &Option<Txt>) -> Option<Txt>
    ensures { result ≡ named typed.now name.now }
{
    match name {
        None if is_name(typed.bytes()) => Some(*typed),
        Some(name) if !is_pin(typed.bytes()) => Some(*name),
        _ => None,
    }
}

fn name_key(user: &Option<Txt>, key: u8, typed: &Txt, name: &Option<Txt>) -> Option<Txt>
    ensures { result ≡ name_key user.now key typed.now name.now }
{
    if user.is_some() {
        if key.is_ascii_digit() { *name } else { None }
    } else if is_enter(key) {
        named(typed, name)
    } else if key == 27 {
        None
    } else {
        *name
    }
}

// Whether a login is answered, or a command of somebody who is not logged in.
fn tells_login(said: &Said) -> bool
    ensures { result ≡ tells_login said.now }
{
    matches!(said, Said::Welcome { .. } | Said::Denied)
}

impl Keyboard {
    /// Nothing typed.
    pub(crate) fn new() -> Keyboard
        ensures { result ≡ record { last = None; typed = []; name = None } }
    {
        Keyboard {
            last: None,
            typed: Txt::empty(),
            name: None,
        }
    }

    /// What is left of what was typed, where what it was meant for is over: a name whose PIN is awaited.
    pub(crate) fn begun_anew(&self) -> Keyboard
        ensures { result ≡ record { last = None; typed = []; name = self.now.name } }
    {
        Keyboard {
            last: None,
            typed: Txt::empty(),
            name: self.name,
        }
    }

    /// What was typed behind a key.
    pub(crate) fn pressed(&self, key: u8, user: &Option<Txt>) -> Keyboard
        ensures { (said : Said) (same : Bool) → IsTyped (Key key) said same user.now self.now result }
    {
        Keyboard {
            last: Some(key),
            typed: typed_after(user, &self.name, &self.typed, key),
            name: name_key(user, key, &self.typed, &self.name),
        }
    }

    /// What was typed behind an answer, after which the same incident is the operator's own, or another one.
    pub(crate) fn behind(&self, said: &Said, same: bool) -> Keyboard
        ensures { (line : List ℕ) (user : Option (List ℕ)) → IsTyped (Answer line) said.now same user self.now result }
    {
        if tells_login(said) {
            return self.begun_anew();
        }
        Keyboard {
            last: if same { self.last } else { None },
            typed: self.typed,
            name: self.name,
        }
    }
}
