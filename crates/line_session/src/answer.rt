// Answering one whole piece.
ghost use Rattle.std.specs.Prelude.{◌≡◌, ◌∷◌, [], true, Err, List};
ghost use Rattle.arc_data.specs.Digits.{is_name};
ghost use Rattle.arc_io.specs.Added.{Answers};
ghost use Rattle.centre_core.specs.Halls.{IsKept};
ghost use Rattle.centre_rules.specs.Summary.{Summary};
ghost use Rattle.centre_rules.specs.History.{Entry};
ghost use Rattle.dc09_frame.specs.Frames.{IsBody};
ghost use Rattle.session_rules.specs.Sessions.{HasShown, changed};
ghost use Rattle.line_session.specs.Sessions.{IsLine, IsCutShort, ending_of};

use crate::buffers::Buffers;
use crate::line_end::LineEnd;
use crate::reply::refuse;
use crate::report::{Report, submit_and_acknowledge};
use arc_data::{Event, Memory, Txt};
use arc_io::{Port, Refusal};
use centre_core::{Hall, Stop};
use civil_time::stamp_of;
use dc09_frame::{Echo, Header, write_echo, write_nak};
use dc09_message::{Verdict, Why, verdict};
use std::alloc::Global;

/// Answers a whole piece of this body, which takes one reading of the clock, on a line of this name.
pub(crate) fn answer<H: Hall, P: Port>(
    alloc: Global,
    hall: &mut H,
    port: &mut P,
    name: &Txt,
    body: &[u8],
    buffers: &mut Buffers,
) -> Result<(), LineEnd>
    requires ready { (H.seen hall.old).ready }
    requires name { is_name name.now ≡ true }
    requires body { IsBody body.now }
    ensures kept { IsKept (H.seen hall.old) (H.seen hall.new) }
    ensures session { (b : Summary) (h : List Entry) → (H.seen hall.old).stands b h →
        IsLine name.now (ending_of result) b (body.now ∷ []) h (changed (H.seen hall.old) (H.seen hall.new) (P.seen port.old) (P.seen port.new)) }
    ensures ends { IsCutShort result }
    ensures stop { HasShown (H.seen hall.new) (ending_of result) }
    ensures port { Answers (result ≡ Err LineEnd.WriteFault) (P.seen port.old) (P.seen port.new) }
{
    let reading = port.now();
    match verdict(alloc, hall.setup(), reading, body, &mut buffers.text) {
        Err(Memory) => Err(LineEnd::Stopped(Stop::Memory)),
        Ok(Verdict::Silence) => Ok(()),
        Ok(Verdict::Nak) => {
            write_nak(&stamp_of(reading), &mut buffers.reply);
            let account = account_in(body);
            refuse(port, &account, Refusal::StaleStamp, &buffers.reply)
        }
        Ok(Verdict::Duh(header, why)) => {
            write_echo(Echo::Duh, &header, &mut buffers.reply);
            refuse(port, &header.account, refusal_of(why), &buffers.reply)
        }
        Ok(Verdict::Beat(header, account)) => {
            let event = Event::Beat { account };
            let report = Report {
                event,
                header,
                reading,
            };
            submit_and_acknowledge(alloc, hall, port, report, &mut buffers.reply)
        }
        Ok(Verdict::Numbered(header, message)) => {
            let event = Event::Message {
                message,
                via: *name,
            };
            let report = Report {
                event,
                header,
                reading,
            };
            submit_and_acknowledge(alloc, hall, port, report, &mut buffers.reply)
        }
    }
}

/// The account in the header of a body, as it came, where a header can be read.
pub(crate) fn account_in(body: &[u8]) -> Txt {
    match Header::read(body) {
        Some((header, _)) => header.account,
        None => Txt::empty(),
    }
}

/// What a port is told of a message that is answered by DUH.
pub(crate) fn refusal_of(why: Why) -> Refusal {
    match why {
        Why::UnknownToken => Refusal::UnknownToken,
        Why::UnknownAccount => Refusal::UnknownAccount,
        Why::PlainButKeyed => Refusal::PlainButKeyed,
        Why::SealedButKeyless => Refusal::SealedButKeyless,
        Why::NotCipher => Refusal::NotCipher,
        Why::NoBar | Why::NoStamp => Refusal::WrongKey,
        Why::BadBlocks => Refusal::UnreadableData,
    }
}
