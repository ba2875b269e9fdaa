// The port on which the line of one datagram is fed.
ghost use Rattle.std.specs.Prelude.{◌≡◌, ◌≤◌, ◌∷◌, [], Some, List, length};
ghost use Rattle.centre_core.specs.Halls.{IsKept};
ghost use Rattle.centre_rules.specs.Summary.{Summary};
ghost use Rattle.centre_rules.specs.History.{Entry};
ghost use Rattle.session_rules.specs.Sessions.{HasShown};
ghost use Rattle.line_session.specs.Sessions.{IsCutShort, ending_of};
ghost use Rattle.udp_line.specs.Datagrams.{FeedsDatagram, OnlyTakes, udp_name};

use arc_data::Txt;
use arc_doors::Mailbox;
use arc_io::{Clock, Ends, Failed, Noise, Port, Refusal, Sink, Source};
use centre_core::Hall;
use line_session::{LineEnd, LineState};
use std::alloc::Global;

/// What the line of one datagram is fed on: its clock and its noise are the mailbox's, which is told what is refused, and what it writes is
/// put behind a text. A write
/// fails for want of memory alone. There is nothing to be read.
#[derive(Drop)]
pub(crate) struct Letter<'a, M: Mailbox> {
    pub(crate) mail: &'a mut M,
    pub(crate) text: &'a mut Vec<u8>,
    read_faults: u64,
    write_faults: u64,
}

impl<'a, M: Mailbox> Letter<'a, M> {
    /// A letter over this mailbox, which writes to this text.
    pub(crate) fn new(mail: &'a mut M, text: &'a mut Vec<u8>) -> Letter<'a, M>
        ensures same_mail { result.mail.ghost_name ≡ mail.entry.ghost_name }
        ensures same_text { result.text.ghost_name ≡ text.entry.ghost_name }
        ensures mail { result.mail.now ≡ mail.old }
        ensures text { result.text.now ≡ text.old }
    {
        Letter {
            mail,
            text,
            read_faults: 0,
            write_faults: 0,
        }
    }
}

// A line does not read, so what would be left to read stands for what feeding it leaves alone: which mailbox and which text these are, and
// the mailbox's own counts of faults.
impl<'a, M: Mailbox> Ends for Letter<'a, M> {
    ghost seen = { λ l. record (M.seen l.mail.now) {
      left = Some (l.mail.ghost_name ∷ l.text.ghost_name ∷ (M.seen l.mail.now).read_faults ∷ (M.seen l.mail.now).write_faults ∷ []);
      read_faults = l.read_faults;
      written = Some l.text.now.items;
      write_faults = l.write_faults;
    } };
}

impl<'a, M: Mailbox> Source for Letter<'a, M> {
    fn read(&mut self, _buf: &mut [u8]) -> Result<usize, Failed> {
        self.read_faults = self.read_faults.saturating_add(1);
        Err(Failed)
    }

    fn read_faults(&self) -> u64 {
        self.read_faults
    }
}

impl<'a, M: Mailbox> Sink for Letter<'a, M> {
    fn write(&mut self, bytes: &[u8]) -> Result<usize, Failed> {
        if self.text.extend_from_slice(bytes).is_err() {
            self.write_faults = self.write_faults.saturating_add(1);
            return Err(Failed);
        }
        Ok(bytes.len())
    }

    fn write_faults(&self) -> u64 {
        self.write_faults
    }
}

impl<'a, M: Mailbox> Clock for Letter<'a, M> {
    fn now(&mut self) -> u64 {
        self.mail.now()
    }
}

impl<'a, M: Mailbox> Noise for Letter<'a, M> {
    fn ten(&mut self) -> [u8; 10] {
        self.mail.ten()
    }
}

impl<'a, M: Mailbox> Port for Letter<'a, M> {
    fn refused(&mut self, account: &Txt, why: Refusal) {
        self.mail.refused(account, why);
    }
}

/// Feeds a new line the bytes of a datagram, on a letter whose text is empty.
pub(crate) fn feed<H: Hall, M: Mailbox>(
    alloc: Global,
    hall: &mut H,
    letter: &mut Letter<M>,
    bytes: &[u8],
) -> Result<(), LineEnd>
    requires ready { (H.seen hall.old).ready }
    requires short { length bytes.now ≤ 8192 }
    requires blank { letter.old.text.now.items ≡ [] }
    ensures same_mail { letter.new.mail.ghost_name ≡ letter.old.mail.ghost_name }
    ensures same_text { letter.new.text.ghost_name ≡ letter.old.text.ghost_name }
    ensures kept { IsKept (H.seen hall.old) (H.seen hall.new) }
    ensures fed { (b : Summary) (h : List Entry) → (H.seen hall.old).stands b h →
        FeedsDatagram (ending_of result) bytes.now letter.new.text.now.items b h (H.seen hall.old) (H.seen hall.new)
        (M.seen letter.old.mail.now) (M.seen letter.new.mail.now) }
    ensures ends { IsCutShort result }
    ensures stop { HasShown (H.seen hall.new) (ending_of result) }
    ensures takes { OnlyTakes (M.seen letter.old.mail.now) (M.seen letter.new.mail.now) }
{
    let mut line = LineState::new(udp());
    line.take(alloc, hall, letter, bytes)
}

// The name of the line of each datagram.
fn udp() -> Txt
    ensures { result ≡ udp_name }
{
    match Txt::of(b"udp") {
        Some(name) => name,
        None => unreachable!(),
    }
}
