// A session over a mailbox.
ghost use Rattle.std.specs.Prelude.{◌≡◌, ◌≤◌, Err, List, ℕ};
ghost use Rattle.arc_io.specs.Causes.{Rose};
ghost use Rattle.centre_core.specs.Halls.{IsKept};
ghost use Rattle.centre_rules.specs.Summary.{Summary};
ghost use Rattle.centre_rules.specs.History.{Entry};
ghost use Rattle.udp_line.specs.Mails.{ReceivesMail, ServesMail, ShowsStop};

use crate::datagram::answer_datagram;
use crate::mail_end::MailEnd;
use arc_doors::{DATAGRAM_ROOM, Mailbox};
use arc_io::Failed;
use centre_core::Hall;
use std::alloc::Global;

/// Serves so many datagrams of a mailbox. Each is a line by itself: a frame that is split over datagrams is none. What the line of a
/// datagram answers goes back as one datagram before the next is received, and nothing goes back where that is empty. Of a datagram of
/// more than 8,192 bytes only these count. `Quota` comes behind as many datagrams as were asked for, `Ended` where no more come,
/// `ReadFault` where none could be received, `WriteFault` where a reply could not be sent, and `Stopped` where the hall stopped or memory
/// was wanted, for a message or for the text of a reply.
pub fn serve_mail<H: Hall, M: Mailbox>(
    alloc: Global,
    hall: &mut H,
    mail: &mut M,
    count: u32,
) -> MailEnd
    requires { (H.seen hall.old).ready }
    ensures mail { (given : List (List ℕ)) × ReceivesMail result count given (M.seen mail.old) (M.seen mail.new)
        × ((b : Summary) (h : List Entry) → (H.seen hall.old).stands b h →
        ServesMail result given b h (H.seen hall.old) (H.seen hall.new) (M.seen mail.old) (M.seen mail.new)) }
    ensures stop { ShowsStop (Err result) (H.seen hall.new) }
    ensures read { result ≡ MailEnd.ReadFault → Rose (M.seen mail.old).read_faults (M.seen mail.new).read_faults }
    ensures write { result ≡ MailEnd.WriteFault → Rose (M.seen mail.old).write_faults (M.seen mail.new).write_faults }

    ensures kept { IsKept (H.seen hall.old) (H.seen hall.new) }
    ensures reads { (M.seen mail.old).read_faults ≤ (M.seen mail.new).read_faults }
    ensures writes { (M.seen mail.old).write_faults ≤ (M.seen mail.new).write_faults }
{
    let mut buffer = [0; DATAGRAM_ROOM];
    let mut text = Vec::new(alloc);
    'datagrams: for _ in 0..count {
        match mail.receive(&mut buffer) {
            Err(Failed) => return MailEnd::ReadFault,
            Ok(None) => return MailEnd::Ended,
            Ok(Some(size)) => {
                let bytes = &buffer[..size];
                if let Err(end) = answer_datagram(alloc, hall, mail, bytes, &mut text) {
                    return end;
                }
            }
        }
    }
    MailEnd::Quota
}
