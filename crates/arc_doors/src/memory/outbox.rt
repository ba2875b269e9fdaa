// The replies of a mailbox in memory.
ghost use Rattle.std.specs.Prelude.{◌≡◌, ◌++◌, ◌∷◌, [], if◌then◌else◌};

use arc_data::Blob;
use arc_io::Failed;
use std::alloc::Global;

/// The replies that a mailbox in memory takes. The calls of `reply` are numbered from 1, those that fail included; a number stays
/// at the last value of `u64`. A call fails whose number is listed, whose memory is refused, or which has nobody to reply to.
pub struct MemOutbox {
    alloc: Global,
    sent: Vec<Blob>,
    failing: Vec<u64>,
    calls: u64,
    faults: u64,
}

// Written out: one call wherever one is dropped, where a derived drop is spelled out at each exit.
impl Drop for MemOutbox {
    fn drop(self) {
        let MemOutbox {
            alloc: _,
            sent,
            failing,
            calls: _,
            faults: _,
        } = self;
        drop(sent);
        drop(failing);
    }
}

impl MemOutbox {
    ghost use Rattle.arc_io.specs.Causes.{HasCause};
    ghost use Rattle.arc_doors.specs.MailMemory.{OutboxCall, outbox_sent, outbox_failing, outbox_calls, outbox_faults};

    /// An empty outbox, which takes no memory yet. Its calls of the numbers in `failing` fail.
    pub fn new(alloc: Global, failing: Vec<u64>) -> Self
        ensures sent { outbox_sent result ≡ [] }
        ensures failing { outbox_failing result ≡ failing.items }
        ensures calls { outbox_calls result ≡ 0 }
        ensures faults { outbox_faults result ≡ 0 }
    {
        MemOutbox {
            alloc,
            sent: Vec::new(alloc),
            failing,
            calls: 0,
            faults: 0,
        }
    }

    /// The datagrams that were sent, the first one first.
    pub fn sent(&self) -> &[Blob]
        ensures { result.now ≡ outbox_sent self.now }
    {
        &self.sent
    }

    // How often a call of `reply` has failed.
    pub(crate) fn faults(&self) -> u64
        ensures { result ≡ outbox_faults self.now }
    {
        self.faults
    }

    // Sends these bytes, where there is anybody to send them to.
    pub(crate) fn reply(&mut self, anybody: bool, bytes: &[u8]) -> Result<(), Failed>
        ensures cause { HasCause (outbox_faults self.old) (outbox_faults self.new) result }
        ensures exact { OutboxCall self.old self.new result anybody bytes.now }
    {
        self.calls = self.calls.saturating_add(1);
        if self.failing.contains(&self.calls) || !anybody || !self.keep(bytes) {
            self.faults = self.faults.saturating_add(1);
            return Err(Failed);
        }
        Ok(())
    }

    // Keeps a copy of the bytes behind the others, unless its memory is refused.
    fn keep(&mut self, bytes: &[u8]) -> bool
        ensures kept { outbox_sent self.new ≡ (if result then outbox_sent self.old ++ bytes.now ∷ [] else outbox_sent self.old) }
        ensures rest { self.new ≡ record self.old { sent = self.new.sent } }
    {
        match Blob::of(self.alloc, bytes) {
            Ok(copy) => self.sent.push(copy).is_ok(),
            Err(_) => false,
        }
    }
}
