// The datagrams of a mailbox in memory.
ghost use Rattle.std.specs.Prelude.{◌≡◌, ◌≤◌, IfOk, length, take, vec_len};

use crate::DATAGRAM_ROOM;
use arc_data::Blob;
use arc_io::Failed;

/// The datagrams that a mailbox in memory gives, one after the other. The calls of `receive` are numbered from 1, those that fail
/// included; a number stays at the last value of `u64`.
pub struct MemInbox {
    datagrams: Vec<Blob>,
    at: usize,
    failing: Vec<u64>,
    calls: u64,
    faults: u64,
    ghost within: { at ≤ vec_len datagrams },
}

// Written out: one call wherever one is dropped, where a derived drop is spelled out at each exit.
impl Drop for MemInbox {
    fn drop(self) {
        let MemInbox {
            datagrams,
            at: _,
            failing,
            calls: _,
            faults: _,
        } = self;
        drop(datagrams);
        drop(failing);
    }
}

impl MemInbox {
    ghost use Rattle.std.specs.Prelude.{IfSome, nat_lt};
    ghost use Rattle.arc_io.specs.Causes.{HasCause};
    ghost use Rattle.arc_doors.specs.Mails.{GivesMail};
    ghost use Rattle.arc_doors.specs.MailMemory.{InboxCall, inbox_left, inbox_given, inbox_failing, inbox_calls, inbox_faults};

    /// An inbox of these datagrams. Its calls of the numbers in `failing` fail, and no others do.
    pub fn new(datagrams: Vec<Blob>, failing: Vec<u64>) -> Self
        ensures left { inbox_left result ≡ datagrams.items }
        ensures given { inbox_given result ≡ 0 }
        ensures failing { inbox_failing result ≡ failing.items }
        ensures calls { inbox_calls result ≡ 0 }
        ensures faults { inbox_faults result ≡ 0 }
    {
        MemInbox {
            datagrams,
            at: 0,
            failing,
            calls: 0,
            faults: 0,
        }
    }

    // Whether a datagram was given.
    pub(crate) fn has_given(&self) -> bool
        ensures { result ≡ nat_lt 0 (inbox_given self.now) }
    {
        self.at > 0
    }

    // How often a call of `receive` has failed.
    pub(crate) fn faults(&self) -> u64
        ensures { result ≡ inbox_faults self.now }
    {
        self.faults
    }

    // The next datagram.
    pub(crate) fn receive(&mut self, buf: &mut [u8; DATAGRAM_ROOM]) -> Result<Option<usize>, Failed>
        ensures bound { IfOk result (λ next. IfSome next (λ n. n ≤ 8192)) }
        ensures mail { GivesMail (Some (inbox_left self.old)) (Some (inbox_left self.new)) result buf.new }
        ensures cause { HasCause (inbox_faults self.old) (inbox_faults self.new) result }
        ensures exact { InboxCall self.old self.new result }
    {
        self.calls = self.calls.saturating_add(1);
        if self.failing.contains(&self.calls) {
            self.faults = self.faults.saturating_add(1);
            return Err(Failed);
        }
        let Some(datagram) = self.datagrams.get(self.at) else {
            return Ok(None);
        };
        let count = copy_front(datagram.bytes(), buf);
        self.at += 1;
        Ok(Some(count))
    }
}

// Copies as many bytes as there is room for, and answers how many.
fn copy_front(bytes: &[u8], buf: &mut [u8]) -> usize
    ensures bound { result ≤ length buf.new }
    ensures given { take result buf.new ≡ take (length buf.old) bytes.now }
{
    let count = bytes.len().min(buf.len());
    buf[..count].copy_from_slice(&bytes[..count]);
    count
}
