// A line in a fixed buffer.
ghost use Rattle.std.specs.Prelude.{◌≡◌, ◌+◌, ◌≤◌, [], ◌++◌, length, decimal, unwrap_or};
ghost use Rattle.arc_data.specs.Classes.{name_of};
ghost use Rattle.desk_wire.specs.Names.{step_name};
ghost use Rattle.desk_wire.specs.Replies.{step_or_none};

use arc_data::{Class, Step, Txt};
use itoa::Buffer;
use std::marker::Model;

/// A line that is being written, of at most 2,048 bytes. Contracts see it as the list of its bytes.
#[derive(Drop)]
pub struct Line {
    bytes: [u8; 2048],
    len: usize,
}

impl Model for Line {
    ghost use Rattle.std.specs.Prelude.{ℕ, ◌≤◌, List, take};

    ghost Value = { List ℕ };

    ghost view = { λ l. take l.len l.bytes };

    ghost invariant = { λ l. l.len ≤ 2048 };
}

impl Line {
    /// No bytes.
    pub fn new() -> Line
        ensures { result ≡ [] }
    {
        Line {
            bytes: [0; 2048],
            len: 0,
        }
    }

    /// Drops all bytes.
    pub(crate) fn clear(&mut self)
        ensures { self.new ≡ [] }
    {
        self.len = 0;
    }

    /// Its bytes.
    pub(crate) fn bytes(&self) -> &[u8]
        ensures { result.now ≡ self.now }
    {
        &self.bytes[..self.len]
    }

    /// Puts bytes behind those that stand there.
    pub(crate) fn put(&mut self, bytes: &[u8])
        requires { length self.old + length bytes.now ≤ 2048 }
        ensures text { self.new ≡ self.old ++ bytes.now }
        ensures size { length self.new ≡ length self.old + length bytes.now }
    {
        let end = self.len + bytes.len();
        self.bytes[self.len..end].copy_from_slice(bytes);
        self.len = end;
    }

    /// Puts a number in decimal.
    pub(crate) fn put_number(&mut self, number: u64)
        requires { length self.old + 20 ≤ 2048 }
        ensures text { self.new ≡ self.old ++ decimal number }
        ensures size { length self.new ≤ length self.old + 20 }
    {
        let mut buffer = Buffer::new();
        self.put(buffer.format(number).as_bytes());
    }

    /// Puts a text.
    pub(crate) fn put_text(&mut self, text: &Txt)
        requires { length self.old + 32 ≤ 2048 }
        ensures text { self.new ≡ self.old ++ text.now }
        ensures size { length self.new ≤ length self.old + 32 }
    {
        self.put(text.bytes());
    }

    /// Puts a text, or another one where there is none.
    pub(crate) fn put_text_or(&mut self, text: &Option<Txt>, other: &[u8])
        requires other { length other.now ≤ 32 }
        requires room { length self.old + 32 ≤ 2048 }
        ensures text { self.new ≡ self.old ++ unwrap_or text.now other.now }
        ensures size { length self.new ≤ length self.old + 32 }
    {
        match text {
            Some(text) => self.put_text(text),
            None => self.put(other),
        }
    }

    /// Puts the name of a class.
    pub(crate) fn put_class(&mut self, class: Class)
        requires { length self.old + 11 ≤ 2048 }
        ensures text { self.new ≡ self.old ++ name_of class }
        ensures size { length self.new ≤ length self.old + 11 }
    {
        self.put(class.name().as_bytes());
    }

    /// Puts the name of a step.
    pub(crate) fn put_step(&mut self, step: Step)
        requires { length self.old + 26 ≤ 2048 }
        ensures text { self.new ≡ self.old ++ step_name step }
        ensures size { length self.new ≤ length self.old + 26 }
    {
        match step {
            Step::Premises => self.put(b"premises"),
            Step::Holder(number) => {
                self.put(b"holder");
                self.put_number(u64::from(number));
            }
            Step::Police => self.put(b"police"),
            Step::Fire => self.put(b"fire"),
            Step::Ambulance => self.put(b"ambulance"),
            Step::Guard => self.put(b"guard"),
            Step::Note => self.put(b"note"),
        }
    }

    /// Puts the name of a step, or `none`.
    pub(crate) fn put_step_or_none(&mut self, step: Option<Step>)
        requires { length self.old + 26 ≤ 2048 }
        ensures text { self.new ≡ self.old ++ step_or_none step }
        ensures size { length self.new ≤ length self.old + 26 }
    {
        match step {
            Some(step) => self.put_step(step),
            None => self.put(b"none"),
        }
    }
}
