// A mailbox in memory.
ghost use Rattle.arc_data.specs.Moments.{IsMoment};

use super::{MemInbox, MemOutbox};
use crate::{DATAGRAM_ROOM, Mailbox};
use arc_io::{Clock, Ends, Failed, ListClock, ListNoise, Noise};

/// A mailbox in memory: datagrams, replies, a clock and a noise together.
pub struct MemMail {
    pub inbox: MemInbox,
    pub outbox: MemOutbox,
    pub clock: ListClock,
    pub noise: ListNoise,
}

// Written out: one call wherever one is dropped, where a derived drop is spelled out at each exit.
impl Drop for MemMail {
    fn drop(self) {
        let MemMail {
            inbox,
            outbox,
            clock,
            noise,
        } = self;
        drop(inbox);
        drop(outbox);
        drop(clock);
        drop(noise);
    }
}

impl Ends for MemMail {
    ghost use Rattle.arc_doors.specs.MailMemory.{mail_seen};

    ghost seen = { mail_seen };
}

impl Clock for MemMail {
    ghost use Rattle.std.specs.Prelude.{◌≡◌};
    ghost use Rattle.arc_io.specs.Told.{after_reading};
    ghost use Rattle.arc_io.specs.Memory.{ClockTick};
    ghost use Rattle.arc_doors.specs.MailMemory.{mail_seen};

    fn now(&mut self) -> u64
        ensures bound { IsMoment result }
        ensures told { mail_seen self.new ≡ after_reading result (mail_seen self.old) }
        ensures exact { ClockTick self.old.clock self.new.clock result }
        ensures same { self.new ≡ record self.old { clock = self.new.clock } }
    {
        self.clock.now()
    }
}

impl Noise for MemMail {
    ghost use Rattle.std.specs.Prelude.{◌≡◌};
    ghost use Rattle.arc_io.specs.Told.{after_noise};
    ghost use Rattle.arc_io.specs.Memory.{NoiseDraw};
    ghost use Rattle.arc_doors.specs.MailMemory.{mail_seen};

    fn ten(&mut self) -> [u8; 10]
        ensures told { mail_seen self.new ≡ after_noise result (mail_seen self.old) }
        ensures exact { NoiseDraw self.old.noise self.new.noise result }
        ensures same { self.new ≡ record self.old { noise = self.new.noise } }
    {
        self.noise.ten()
    }
}

impl Mailbox for MemMail {
    ghost use Rattle.std.specs.Prelude.{◌≡◌, ◌≤◌, IfOk, IfSome, nat_lt, refl};
    ghost use Rattle.arc_doors.specs.Mails.{Receives, Sends};
    ghost use Rattle.arc_doors.specs.MailMemory.{mail_seen, inbox_given, InboxCall, OutboxCall};

    ghost no_stream = { λ _. record { left = refl; ended = refl; written = refl } };

    fn receive(&mut self, buf: &mut [u8; DATAGRAM_ROOM]) -> Result<Option<usize>, Failed>
        ensures bound { IfOk result (λ next. IfSome next (λ n. n ≤ 8192)) }
        ensures told { Receives (mail_seen self.old) (mail_seen self.new) result buf.new }
        ensures exact { InboxCall self.old.inbox self.new.inbox result }
        ensures same { self.new ≡ record self.old { inbox = self.new.inbox } }
    {
        self.inbox.receive(buf)
    }

    fn reply(&mut self, bytes: &[u8]) -> Result<(), Failed>
        ensures told { Sends (mail_seen self.old) (mail_seen self.new) result bytes.now }
        ensures exact { OutboxCall self.old.outbox self.new.outbox result (nat_lt 0 (inbox_given self.old.inbox)) bytes.now }
        ensures same { self.new ≡ record self.old { outbox = self.new.outbox } }
    {
        let anybody = self.inbox.has_given();
        self.outbox.reply(anybody, bytes)
    }

    fn receive_faults(&self) -> u64 {
        self.inbox.faults()
    }

    fn reply_faults(&self) -> u64 {
        self.outbox.faults()
    }
}
