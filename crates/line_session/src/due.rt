// What is due for a frame.
ghost use Rattle.std.specs.Prelude.{◌≡◌, true, IfOk, IfErr};
ghost use Rattle.alarm_rules.specs.Setups.{meaning};
ghost use Rattle.arc_data.specs.Digits.{is_name};
ghost use Rattle.centre_rules.specs.History.{IsMoment};
ghost use Rattle.dc09_frame.specs.Frames.{IsBody};
ghost use Rattle.dc09_message.specs.Verdicts.{verdict_of, TakesMemory};
ghost use Rattle.line_session.specs.Dues.{IsJudged, IsDueUnder, MayBePut, SendsDue};

use crate::answer::{account_in, refusal_of};
use crate::line_end::LineEnd;
use crate::reply::{acknowledge, refuse};
use arc_data::{Event, Memory, Txt};
use arc_io::{Port, Refusal};
use centre_core::{Hall, Setup};
use civil_time::stamp_of;
use dc09_frame::{Echo, FrameBuf, Header, write_echo, write_nak};
use dc09_message::{Verdict, Why, verdict};
use std::alloc::Global;

/// What is due for a frame that was judged at a reading of the clock.
#[derive(Clone, Copy)]
pub(crate) enum Due {
    /// Nothing.
    Silence,
    /// NAK, to a message of the account that stands in the header, as it came.
    Nak { account: Txt, reading: u64 },
    /// DUH, for this cause.
    Duh { header: Header, why: Why },
    /// The acknowledgement, once its event has an entry.
    Ack { header: Header, reading: u64 },
}

/// A frame that was judged: what is due for it, and the event that it reports, if it does, with the reading.
#[derive(Drop)]
pub(crate) struct Judged {
    pub(crate) due: Due,
    pub(crate) event: Option<Event>,
    pub(crate) reading: u64,
}

/// Judges a whole piece of this body at a reading of the clock, on a line of this name.
pub(crate) fn judge(
    alloc: Global,
    setup: &Setup,
    reading: u64,
    name: &Txt,
    body: &[u8],
    text: &mut FrameBuf,
) -> Result<Judged, Memory>
    requires name { is_name name.now ≡ true }
    requires body { IsBody body.now }
    requires reading { IsMoment reading }
    ensures judged { IfOk result (λ j. IsJudged name.now (meaning setup.now) body.now reading j) }
    ensures may { IfOk result (MayBePut (meaning setup.now)) }
    ensures memory { IfErr result (λ _. TakesMemory (verdict_of (meaning setup.now) reading body.now)) }
{
    let (due, event) = match verdict(alloc, setup, reading, body, text)? {
        Verdict::Silence => (Due::Silence, None),
        Verdict::Nak => {
            let account = account_in(body);
            (Due::Nak { account, reading }, None)
        }
        Verdict::Duh(header, why) => (Due::Duh { header, why }, None),
        Verdict::Beat(header, account) => {
            (Due::Ack { header, reading }, Some(Event::Beat { account }))
        }
        Verdict::Numbered(header, message) => {
            let via = *name;
            (
                Due::Ack { header, reading },
                Some(Event::Message { message, via }),
            )
        }
    };
    Ok(Judged {
        due,
        event,
        reading,
    })
}

/// Sends what is due.
pub(crate) fn send_due<H: Hall, P: Port>(
    hall: &H,
    port: &mut P,
    due: &Due,
    reply: &mut FrameBuf,
) -> Result<(), LineEnd>
    requires ready { (H.seen hall.now).ready }
    requires due { IsDueUnder (meaning (H.seen hall.now).text) due.now }
    ensures sent { SendsDue result (meaning (H.seen hall.now).text) due.now (P.seen port.old) (P.seen port.new) }
    ensures ends { IfErr result (λ end. end ≡ LineEnd.WriteFault) }
{
    match due {
        Due::Silence => Ok(()),
        Due::Nak { account, reading } => {
            write_nak(&stamp_of(*reading), reply);
            refuse(port, account, Refusal::StaleStamp, reply)
        }
        Due::Duh { header, why } => {
            write_echo(Echo::Duh, header, reply);
            refuse(port, &header.account, refusal_of(*why), reply)
        }
        Due::Ack { header, reading } => acknowledge(hall, port, header, *reading, reply),
    }
}
