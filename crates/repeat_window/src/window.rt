// The last 32 messages of an account.
ghost use Rattle.std.specs.Prelude.{◌≡◌, ◌<◌, ◌≤◌, ◌∷◌, [], Some, length, slice_get, take, reverse, IfOk};
ghost use Rattle.std.specs.List.{find};
ghost use Rattle.std.specs.Option.{option_map};
ghost use Rattle.centre_rules.specs.Answers.{repeats, same_message};
ghost use Rattle.repeat_window.specs.Windows.{newest_of};

use crate::{Memory, Message, Seen};
use arc_data::Blob;
use circular_buffer::HeapCircularBuffer;
use std::alloc::Global;
use std::marker::Model;

/// The last 32 messages that were pushed, each with its moment. Contracts see their list, the newest first.
#[derive(Drop)]
pub struct Window {
    ring: HeapCircularBuffer<Seen>,
    // The sequences of the messages in the ring, the newest first, and zeros where there are fewer: few bytes to read before
    // the messages are.
    sequences: [u16; 32],
}

impl Model for Window {
    ghost use Rattle.std.specs.Prelude.{List, reverse};
    ghost use Rattle.arc_data.specs.declared.event.Past.{Past};
    ghost use Rattle.repeat_window.specs.Windows.{IsWindow};

    ghost Value = { List Past };

    ghost view = { λ w. reverse w.ring.items };

    ghost invariant = { λ w. IsWindow w.ring.items w.ring.capacity w.sequences };
}

impl Window {
    /// No messages, and room for 32. The error is want of memory.
    pub fn new(alloc: Global) -> Result<Window, Memory>
        ensures { IfOk result (λ window. window ≡ []) }
    {
        let Ok(ring) = HeapCircularBuffer::with_capacity(alloc, 32) else {
            return Err(Memory);
        };
        Ok(Window {
            ring,
            sequences: [0; 32],
        })
    }

    /// Puts a message in, the newest one. Of 33 the oldest goes. It takes no memory.
    pub fn push(&mut self, seen: Seen)
        ensures { self.new ≡ take 32 (seen ∷ self.old) }
    {
        self.sequences = led_by(seen.message.seq, &self.sequences);
        self.ring.push_back(seen);
    }

    /// How many messages it keeps: at most 32.
    pub fn count(&self) -> usize
        ensures count { result ≡ length self.now }
        ensures few { result ≤ 32 }
    {
        self.ring.len()
    }

    /// The message at a place below the count, with its moment. The oldest has the place 0.
    pub fn at(&self, i: usize) -> &Seen
        requires { i < length self.now }
        ensures { slice_get (reverse self.now) i ≡ Some result.now }
    {
        match self.ring.get(i) {
            Some(seen) => seen,
            None => unreachable!(),
        }
    }

    /// A copy of it. The error is want of memory.
    pub fn copy(&self, alloc: Global) -> Result<Window, Memory>
        ensures { IfOk result (λ window. window ≡ self.now) }
    {
        let mut copy = Window::new(alloc)?;
        for i in 0..self.count() {
            let seen = copied(alloc, self.at(i))?;
            copy.push(seen);
        }
        Ok(copy)
    }

    /// The moment of the newest of the last 32 that makes the message, at this moment, a repeat.
    pub fn holds(&self, message: &Message, at: u64) -> Option<u64>
        ensures { result ≡ option_map (λ p. p.at) (find (repeats message.now at) (take 32 self.now)) }
    {
        if !self.sequences.contains(&message.seq) {
            return None;
        }
        newest(&self.ring, message, at)
    }
}

// A message once more, with its moment.
fn copied(alloc: Global, seen: &Seen) -> Result<Seen, Memory>
    ensures { IfOk result (λ copy. copy ≡ seen.now) }
{
    let content = Blob::of(alloc, seen.message.content.bytes())?;
    let message = Message {
        account: seen.message.account,
        receiver: seen.message.receiver,
        line: seen.message.line,
        seq: seen.message.seq,
        token: seen.message.token,
        content,
    };
    Ok(Seen {
        message,
        at: seen.at,
    })
}

// The newest sequence, and behind it the first 31 of those before.
fn led_by(newest: u16, before: &[u16; 32]) -> [u16; 32]
    ensures { result ≡ newest ∷ take 31 before.now }
{
    let mut sequences = [newest; 32];
    sequences[1..].copy_from_slice(&before[..31]);
    sequences
}

// The moment of the newest of the ring that makes the message a repeat. The ring has the oldest first.
fn newest(ring: &HeapCircularBuffer<Seen>, message: &Message, at: u64) -> Option<u64>
    ensures { result ≡ option_map (λ p. p.at) (find (repeats message.now at) (reverse ring.now.items)) }
{
    let mut newest = None;
    for seen in ring.iter() {
        newest = newer(newest, seen, message, at);
    }
    newest
}

// The newest that makes the message a repeat, after one that is newer than those before.
fn newer(newest: Option<u64>, seen: &Seen, message: &Message, at: u64) -> Option<u64>
    ensures { result ≡ newest_of message.now at newest seen.now }
{
    if is_repeated(seen, message, at) {
        Some(seen.at)
    } else {
        newest
    }
}

// Whether the recorded message makes this one a repeat.
fn is_repeated(seen: &Seen, message: &Message, at: u64) -> bool
    ensures { result ≡ repeats message.now at seen.now }
{
    same(&seen.message, message) && at.saturating_sub(300) <= seen.at
}

// Whether they agree in all but the account.
fn same(a: &Message, b: &Message) -> bool
    ensures { result ≡ same_message a.now b.now }
{
    a.receiver == b.receiver
        && a.line == b.line
        && a.seq == b.seq
        && a.token == b.token
        && a.content.bytes() == b.content.bytes()
}
