// A panel at the other end of a line.
ghost use Rattle.std.specs.Prelude.{◌≡◌, false};

use arc_io::{Clock, Ends, Failed, Noise, Port, Sink, Source};
use test_fixtures::moments::BEGIN;

/// A panel that sends a few bytes at a time, awaits replies, and takes one byte of a reply in each call. A read that comes
/// before the replies that it awaits fails, and so does one behind the end of the input.
#[derive(Drop)]
pub(crate) struct Panel {
    /// What it sends.
    pub(crate) input: Vec<u8>,
    /// How many bytes a read gives at most.
    pub(crate) most: usize,
    /// How many more bytes have to be written before each further read: else the read fails.
    pub(crate) awaited: usize,
    /// The write that fails, numbered from 1.
    pub(crate) fails_at: u64,
    /// What was written.
    pub(crate) written: Vec<u8>,
    sent: usize,
    due: usize,
    writes: u64,
    ended: bool,
    early: u64,
    faults: u64,
}

impl Panel {
    /// A panel that awaits nothing and that no write fails.
    pub(crate) fn new(input: Vec<u8>, most: usize, written: Vec<u8>) -> Panel
        ensures { result.ended ≡ false }
    {
        Panel {
            input,
            most,
            awaited: 0,
            fails_at: 0,
            written,
            sent: 0,
            due: 0,
            writes: 0,
            ended: false,
            early: 0,
            faults: 0,
        }
    }
}

impl Ends for Panel {
    ghost use Rattle.arc_io.specs.Seen.{untold};

    ghost seen = { λ p. record untold { ended = p.ended; read_faults = p.early; write_faults = p.faults } };
}

impl Source for Panel {
    fn read(&mut self, buf: &mut [u8]) -> Result<usize, Failed> {
        if self.ended || self.written.len() < self.due {
            self.early = self.early.saturating_add(1);
            return Err(Failed);
        }
        self.due = self.due.saturating_add(self.awaited);
        let rest = &self.input[self.sent.min(self.input.len())..];
        let count = rest.len().min(self.most).min(buf.len());
        buf[..count].copy_from_slice(&rest[..count]);
        self.sent = self.sent.saturating_add(count);
        self.ended = count == 0 && !buf.is_empty();
        Ok(count)
    }

    fn read_faults(&self) -> u64 {
        self.early
    }
}

impl Sink for Panel {
    fn write(&mut self, bytes: &[u8]) -> Result<usize, Failed> {
        self.writes = self.writes.saturating_add(1);
        let Some(first) = bytes.first() else {
            return Ok(0);
        };
        if self.writes == self.fails_at || self.written.push(*first).is_err() {
            self.faults = self.faults.saturating_add(1);
            return Err(Failed);
        }
        Ok(1)
    }

    fn write_faults(&self) -> u64 {
        self.faults
    }
}

impl Clock for Panel {
    fn now(&mut self) -> u64 {
        BEGIN
    }
}

impl Noise for Panel {
    fn ten(&mut self) -> [u8; 10] {
        [0; 10]
    }
}

impl Port for Panel {}
