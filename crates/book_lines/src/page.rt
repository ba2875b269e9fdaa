// A page, on which lines are put until they are written.
ghost use Rattle.std.specs.Prelude.{◌≡◌, ◌+◌, ◌≤◌, [], ◌++◌, IfOk, length, take, decimal};
ghost use Rattle.desk_wire.specs.Names.{step_name};

use arc_data::{Memory, Step};
use itoa::Buffer;
use std::alloc::Global;
use std::marker::Model;

const SIZE: usize = 524_288;

/// Lines that wait to be written, of at most 524,288 bytes together: any one line has at most 440,000. Contracts see the list of the bytes.
#[derive(Drop)]
pub struct Page {
    room: Vec<u8>,
    len: usize,
}

impl Model for Page {
    ghost use Rattle.std.specs.Prelude.{◌≡◌, ◌≤◌, ℕ, List, take, vec_len};

    ghost Value = { List ℕ };

    ghost view = { λ p. take p.len p.room.items };

    ghost invariant = { λ p. (p.len ≤ 524288) × (vec_len p.room ≡ 524288) };
}

impl Page {
    /// An empty page. The error is want of memory, of which it takes all that it needs.
    pub fn new(alloc: Global) -> Result<Page, Memory>
        ensures { IfOk result (λ p. p ≡ []) }
    {
        match vec![in alloc; 0; SIZE] {
            Ok(room) => Ok(Page { room, len: 0 }),
            Err(_) => Err(Memory),
        }
    }

    /// What stands there.
    pub fn bytes(&self) -> &[u8]
        ensures { result.now ≡ self.now }
    {
        &self.room[..self.len]
    }

    /// How many bytes stand there.
    pub fn count(&self) -> usize
        ensures { result ≡ length self.now }
    {
        self.len
    }

    /// Takes all away.
    pub fn clear(&mut self)
        ensures { self.new ≡ [] }
    {
        self.len = 0;
    }

    /// Takes all away but the first so many bytes.
    pub fn cut(&mut self, count: usize)
        requires { count ≤ length self.old }
        ensures { self.new ≡ take count self.old }
    {
        self.len = count;
    }

    /// Puts bytes behind those that stand there.
    pub fn put(&mut self, bytes: &[u8])
        requires { length self.old + length bytes.now ≤ 524288 }
        ensures text { self.new ≡ self.old ++ bytes.now }
        ensures size { length self.new ≡ length self.old + length bytes.now }
    {
        let end = self.len + bytes.len();
        self.room[self.len..end].copy_from_slice(bytes);
        self.len = end;
    }

    /// Puts a number in decimal.
    pub fn put_number(&mut self, number: u64)
        requires { length self.old + 20 ≤ 524288 }
        ensures text { self.new ≡ self.old ++ decimal number }
        ensures size { length self.new ≤ length self.old + 20 }
    {
        let mut buffer = Buffer::new();
        self.put(buffer.format(number).as_bytes());
    }

    /// Puts the name of a step.
    pub(crate) fn put_step(&mut self, step: Step)
        requires { length self.old + 26 ≤ 524288 }
        ensures text { self.new ≡ self.old ++ step_name step }
        ensures size { length self.new ≤ length self.old + 26 }
    {
        match step {
            Step::Premises => self.put(b"premises"),
            Step::Holder(number) => {
                self.put(b"holder");
                self.put_number(u64::from(number));
            }
            Step::Police => self.put(b"police"),
            Step::Fire => self.put(b"fire"),
            Step::Ambulance => self.put(b"ambulance"),
            Step::Guard => self.put(b"guard"),
            Step::Note => self.put(b"note"),
        }
    }
}
