// A line in a fixed buffer.
ghost use Rattle.std.specs.Prelude.{◌≡◌, ◌+◌, ◌≤◌, [], ◌++◌, length, decimal};
ghost use Rattle.desk_wire.specs.Names.{code_name, outcome_name, step_name};

use arc_data::{CloseCode, Outcome, Step};
use itoa::Buffer;
use std::marker::Model;

/// A line that is being written, of at most 256 bytes. Contracts see it as the list of its bytes.
#[derive(Drop)]
pub struct Line {
    bytes: [u8; 256],
    len: usize,
}

impl Model for Line {
    ghost use Rattle.std.specs.Prelude.{ℕ, ◌≤◌, List, take};

    ghost Value = { List ℕ };

    ghost view = { λ l. take l.len l.bytes };

    ghost invariant = { λ l. l.len ≤ 256 };
}

impl Line {
    /// No bytes.
    pub(crate) fn new() -> Line
        ensures { result ≡ [] }
    {
        Line {
            bytes: [0; 256],
            len: 0,
        }
    }

    /// Its bytes.
    pub fn bytes(&self) -> &[u8]
        ensures { result.now ≡ self.now }
    {
        &self.bytes[..self.len]
    }

    /// Puts bytes behind those that stand there.
    pub(crate) fn put(&mut self, bytes: &[u8])
        requires { length self.old + length bytes.now ≤ 256 }
        ensures text { self.new ≡ self.old ++ bytes.now }
        ensures size { length self.new ≡ length self.old + length bytes.now }
    {
        let end = self.len + bytes.len();
        self.bytes[self.len..end].copy_from_slice(bytes);
        self.len = end;
    }

    /// Puts a number in decimal.
    pub(crate) fn put_number(&mut self, number: u64)
        requires { length self.old + 20 ≤ 256 }
        ensures text { self.new ≡ self.old ++ decimal number }
        ensures size { length self.new ≤ length self.old + 20 }
    {
        let mut buffer = Buffer::new();
        self.put(buffer.format(number).as_bytes());
    }

    /// Puts the name of a step.
    pub(crate) fn put_step(&mut self, step: Step)
        requires { length self.old + 26 ≤ 256 }
        ensures text { self.new ≡ self.old ++ step_name step }
        ensures size { length self.new ≤ length self.old + 26 }
    {
        match step {
            Step::Premises => self.put(b"premises"),
            Step::Holder(number) => {
                self.put(b"holder");
                self.put_number(u64::from(number));
            }
            Step::Police => self.put(b"police"),
            Step::Fire => self.put(b"fire"),
            Step::Ambulance => self.put(b"ambulance"),
            Step::Guard => self.put(b"guard"),
            Step::Note => self.put(b"note"),
        }
    }

    /// Puts the name of an outcome.
    pub(crate) fn put_outcome(&mut self, outcome: Outcome)
        requires { length self.old + 8 ≤ 256 }
        ensures text { self.new ≡ self.old ++ outcome_name outcome }
        ensures size { length self.new ≤ length self.old + 8 }
    {
        match outcome {
            Outcome::Reached => self.put(b"reached"),
            Outcome::NoAnswer => self.put(b"noanswer"),
            Outcome::Done => self.put(b"done"),
        }
    }

    /// Puts the name of a code.
    pub(crate) fn put_code(&mut self, code: CloseCode)
        requires { length self.old + 5 ≤ 256 }
        ensures text { self.new ≡ self.old ++ code_name code }
        ensures size { length self.new ≤ length self.old + 5 }
    {
        match code {
            CloseCode::Real => self.put(b"real"),
            CloseCode::False => self.put(b"false"),
            CloseCode::Test => self.put(b"test"),
        }
    }
}
