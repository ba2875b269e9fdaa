// A source in memory.
ghost use Rattle.std.specs.Prelude.{◌≡◌, ◌+◌, ◌++◌, false, ◌≤◌, vec_len, drop, take, length, min};

use super::is_listed;
use crate::{Ends, Failed, Source};

/// Bytes in memory, read call by call. The calls of `read` are numbered from 1, those that fail
/// included; a number stays at the last value of `u64`. Once a call has met the end, each further one fails.
pub struct MemSource {
    bytes: Vec<u8>,
    at: usize,
    failing: Vec<u64>,
    calls: u64,
    faults: u64,
    ended: bool,
    ghost within: { at ≤ vec_len bytes },
}

// Written out: one call wherever one is dropped, where a derived drop is spelled out at each exit.
impl Drop for MemSource {
    fn drop(self) {
        let MemSource {
            bytes,
            at: _,
            failing,
            calls: _,
            faults: _,
            ended: _,
        } = self;
        drop(bytes);
        drop(failing);
    }
}

impl MemSource {
    ghost use Rattle.arc_io.specs.Memory.{source_left, source_failing, source_calls, source_faults, source_ended};

    /// A source of these bytes. Its calls of the numbers in `failing` fail, and no others do.
    pub fn new(bytes: Vec<u8>, failing: Vec<u64>) -> Self
        ensures left { source_left result ≡ bytes.items }
        ensures failing { source_failing result ≡ failing.items }
        ensures calls { source_calls result ≡ 0 }
        ensures faults { source_faults result ≡ 0 }
        ensures ended { source_ended result ≡ false }
    {
        MemSource {
            bytes,
            at: 0,
            failing,
            calls: 0,
            faults: 0,
            ended: false,
        }
    }
}

impl Ends for MemSource {
    ghost use Rattle.arc_io.specs.Memory.{source_seen};

    ghost seen = { source_seen };
}

impl Source for MemSource {
    ghost use Rattle.std.specs.Io.{ReadsAtMost};
    ghost use Rattle.arc_io.specs.Told.{Reads};
    ghost use Rattle.arc_io.specs.Memory.{source_seen, SourceRead};

    /// Gives as many bytes as are left and have room, in each call that does not fail.
    fn read(&mut self, buf: &mut [u8]) -> Result<usize, Failed>
        ensures bound { ReadsAtMost result buf.new }
        ensures told { Reads (source_seen self.old) (source_seen self.new) result buf.new }
        ensures exact { SourceRead self.old self.new result buf.old buf.new }
    {
        self.calls = self.calls.saturating_add(1);
        if self.ended || is_listed(&self.failing, self.calls) {
            self.faults = self.faults.saturating_add(1);
            return Err(Failed);
        }
        let count = read_from(&self.bytes, self.at, buf);
        self.at += count;
        self.ended = count == 0 && !buf.is_empty();
        Ok(count)
    }

    fn read_faults(&self) -> u64 {
        self.faults
    }
}

// Reads the bytes from a place on, and answers how many.
fn read_from(bytes: &[u8], at: usize, buf: &mut [u8]) -> usize
    requires { at ≤ length bytes.now }
    ensures within { at + result ≤ length bytes.now }
    ensures count { result ≡ min (length buf.new) (length (drop at bytes.now)) }
    ensures given { drop at bytes.now ≡ take result buf.new ++ drop (at + result) bytes.now }
{
    let rest = &bytes[at..];
    let count = rest.len().min(buf.len());
    buf[..count].copy_from_slice(&rest[..count]);
    count
}
