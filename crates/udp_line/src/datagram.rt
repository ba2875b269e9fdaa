// Answering one datagram.
ghost use Rattle.std.specs.Prelude.{◌≡◌, ◌≤◌, ◌∷◌, [], true, Err, IfErr, OnOk, List, length};
ghost use Rattle.arc_doors.specs.Mails.{append_replies};
ghost use Rattle.arc_io.specs.Causes.{Rose};
ghost use Rattle.centre_core.specs.Halls.{IsKept};
ghost use Rattle.centre_rules.specs.Summary.{Summary};
ghost use Rattle.centre_rules.specs.History.{Entry};
ghost use Rattle.session_rules.specs.Sessions.{HasShown};
ghost use Rattle.line_session.specs.Sessions.{IsCutShort, ending_of};
ghost use Rattle.udp_line.specs.Datagrams.{AnswersDatagram, EndsDatagram, FeedsDatagram, IsHalt, OnlyReplies, OnlySends, OnlyTakes, has_bytes, sent_for};
ghost use Rattle.udp_line.specs.Mails.{ShowsStop};

use crate::letter::{Letter, feed};
use crate::mail_end::MailEnd;
use arc_doors::Mailbox;
use arc_io::Failed;
use centre_core::{Hall, Stop};
use line_session::LineEnd;
use std::alloc::Global;

/// Answers one datagram, of these bytes: a new line is fed with them, and what it answers goes back as one datagram, or none where that
/// is nothing. The text is room for it.
pub(crate) fn answer_datagram<H: Hall, M: Mailbox>(
    alloc: Global,
    hall: &mut H,
    mail: &mut M,
    bytes: &[u8],
    text: &mut Vec<u8>,
) -> Result<(), MailEnd>
    requires ready { (H.seen hall.old).ready }
    requires short { length bytes.now ≤ 8192 }
    ensures kept { IsKept (H.seen hall.old) (H.seen hall.new) }
    ensures answered { (b : Summary) (h : List Entry) → (H.seen hall.old).stands b h →
        AnswersDatagram result bytes.now b h (H.seen hall.old) (H.seen hall.new) (M.seen mail.old) (M.seen mail.new) }
    ensures ends { EndsDatagram result }
    ensures stop { ShowsStop result (H.seen hall.new) }
    ensures only { OnlyReplies (M.seen mail.old) (M.seen mail.new) }
    ensures rose { result ≡ Err MailEnd.WriteFault → Rose (M.seen mail.old).write_faults (M.seen mail.new).write_faults }
{
    text.clear();
    match fill(alloc, hall, mail, bytes, text) {
        Ok(()) => send(mail, text),
        Err(end) => Err(MailEnd::Stopped(stop_of(end))),
    }
}

// Feeds a new line these bytes, with the mailbox's clock and noise, and an empty text for what it writes.
fn fill<H: Hall, M: Mailbox>(
    alloc: Global,
    hall: &mut H,
    mail: &mut M,
    bytes: &[u8],
    text: &mut Vec<u8>,
) -> Result<(), LineEnd>
    requires ready { (H.seen hall.old).ready }
    requires short { length bytes.now ≤ 8192 }
    requires blank { text.old.items ≡ [] }
    ensures kept { IsKept (H.seen hall.old) (H.seen hall.new) }
    ensures fed { (b : Summary) (h : List Entry) → (H.seen hall.old).stands b h →
        FeedsDatagram (ending_of result) bytes.now text.new.items b h (H.seen hall.old) (H.seen hall.new) (M.seen mail.old) (M.seen mail.new) }
    ensures ends { IsCutShort result }
    ensures stop { HasShown (H.seen hall.new) (ending_of result) }
    ensures takes { OnlyTakes (M.seen mail.old) (M.seen mail.new) }
{
    let mut letter = Letter::new(mail, text);
    feed(alloc, hall, &mut letter, bytes)
}

// Why a line that was cut short stops all. A letter takes all that is written unless memory is wanted.
fn stop_of(end: LineEnd) -> Stop
    requires { IsCutShort (Err end) }
    ensures { IsHalt result (ending_of (Err end)) }
{
    match end {
        LineEnd::Stopped(stop) => stop,
        _ => Stop::Memory,
    }
}

// Sends a text as one datagram, unless it has no byte.
fn send<M: Mailbox>(mail: &mut M, text: &[u8]) -> Result<(), MailEnd>
    ensures only { OnlySends (M.seen mail.old) (M.seen mail.new) }
    ensures sent { OnOk result ((M.seen mail.new).replies ≡ append_replies (M.seen mail.old).replies (sent_for (text.now ∷ []))) }
    ensures ends { IfErr result (λ end. end ≡ MailEnd.WriteFault) }
    ensures fault { IfErr result (λ end. (end ≡ MailEnd.WriteFault) × (has_bytes text.now ≡ true)
        × ((M.seen mail.new).replies ≡ (M.seen mail.old).replies) × Rose (M.seen mail.old).write_faults (M.seen mail.new).write_faults) }
{
    if text.is_empty() {
        return Ok(());
    }
    match mail.reply(text) {
        Ok(()) => Ok(()),
        Err(Failed) => Err(MailEnd::WriteFault),
    }
}
