// A sink in memory.
ghost use Rattle.std.specs.Prelude.{◌≡◌, []};

use super::is_listed;
use crate::{Ends, Failed, Sink};
use std::alloc::Global;

/// A sink in memory. The calls of `write` are numbered from 1, those that fail included; a number stays
/// at the last value of `u64`. A call whose number is listed fails, and so does one whose memory is refused.
pub struct MemSink {
    bytes: Vec<u8>,
    failing: Vec<u64>,
    calls: u64,
    faults: u64,
}

// Written out: one call wherever one is dropped, where a derived drop is spelled out at each exit.
impl Drop for MemSink {
    fn drop(self) {
        let MemSink {
            bytes,
            failing,
            calls: _,
            faults: _,
        } = self;
        drop(bytes);
        drop(failing);
    }
}

impl MemSink {
    ghost use Rattle.arc_io.specs.Memory.{sink_bytes, sink_failing, sink_calls, sink_faults};

    /// An empty sink, which takes no memory yet. Its calls of the numbers in `failing` fail.
    pub fn new(alloc: Global, failing: Vec<u64>) -> Self
        ensures bytes { sink_bytes result ≡ [] }
        ensures failing { sink_failing result ≡ failing.items }
        ensures calls { sink_calls result ≡ 0 }
        ensures faults { sink_faults result ≡ 0 }
    {
        MemSink {
            bytes: Vec::new(alloc),
            failing,
            calls: 0,
            faults: 0,
        }
    }

    /// The bytes that were taken.
    pub fn bytes(&self) -> &[u8]
        ensures { result.now ≡ sink_bytes self.now }
    {
        &self.bytes
    }
}

impl Ends for MemSink {
    ghost use Rattle.arc_io.specs.Memory.{sink_seen};

    ghost seen = { sink_seen };
}

impl Sink for MemSink {
    ghost use Rattle.std.specs.Prelude.{IfOk};
    ghost use Rattle.std.specs.Io.{WritesAtMost};
    ghost use Rattle.arc_io.specs.Told.{Writes};
    ghost use Rattle.arc_io.specs.Memory.{sink_seen, SinkWrite};

    /// Takes all of the bytes, in each call that does not fail.
    fn write(&mut self, bytes: &[u8]) -> Result<usize, Failed>
        ensures bound { WritesAtMost result bytes.now }
        ensures some { IfOk result (λ count. count ≡ 0 → bytes.now ≡ []) }
        ensures told { Writes (sink_seen self.old) (sink_seen self.new) result bytes.now }
        ensures exact { SinkWrite self.old self.new result bytes.now }
    {
        self.calls = self.calls.saturating_add(1);
        if is_listed(&self.failing, self.calls) || self.bytes.extend_from_slice(bytes).is_err() {
            self.faults = self.faults.saturating_add(1);
            return Err(Failed);
        }
        Ok(bytes.len())
    }

    fn write_faults(&self) -> u64 {
        self.faults
    }
}
