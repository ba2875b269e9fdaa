// Sending replies.
ghost use Rattle.std.specs.Prelude.{◌≡◌, IfErr};
ghost use Rattle.arc_io.specs.Told.{Puts};
ghost use Rattle.alarm_rules.specs.Setups.{meaning};
ghost use Rattle.civil_time.specs.Stamp.{IsMoment};
ghost use Rattle.dc09_frame.specs.Headers.{IsHeader};
ghost use Rattle.dc09_message.specs.Verdicts.{IsSealedAsKeyed};
ghost use Rattle.line_session.specs.Replies.{SendsAck};

use crate::line_end::LineEnd;
use arc_data::Txt;
use arc_io::{Failed, Port, Refusal, put};
use centre_core::Hall;
use civil_time::stamp_of;
use dc09_crypt::seal_ack;
use dc09_frame::{Echo, FrameBuf, Header, write_echo};

/// Sends a reply.
pub(crate) fn send<P: Port>(port: &mut P, reply: &FrameBuf) -> Result<(), LineEnd>
    ensures told { Puts (P.seen port.old) (P.seen port.new) result reply.now }
    ensures ends { IfErr result (λ end. end ≡ LineEnd.WriteFault) }
{
    match put(port, reply.bytes()) {
        Ok(()) => Ok(()),
        Err(Failed) => Err(LineEnd::WriteFault),
    }
}

/// Sends the reply to a message of this account that was refused, and tells the port why.
pub(crate) fn refuse<P: Port>(
    port: &mut P,
    account: &Txt,
    why: Refusal,
    reply: &FrameBuf,
) -> Result<(), LineEnd>
    ensures told { Puts (P.seen port.old) (P.seen port.new) result reply.now }
    ensures ends { IfErr result (λ end. end ≡ LineEnd.WriteFault) }
{
    let sent = send(port, reply);
    port.refused(account, why);
    sent
}

/// Acknowledges the message of this header at a reading: a sealed one under the key of its account, with ten bytes of noise.
pub(crate) fn acknowledge<H: Hall, P: Port>(
    hall: &H,
    port: &mut P,
    header: &Header,
    reading: u64,
    reply: &mut FrameBuf,
) -> Result<(), LineEnd>
    requires ready { (H.seen hall.now).ready }
    requires header { IsHeader header.now }
    requires reading { IsMoment reading }
    requires keyed { IsSealedAsKeyed (meaning (H.seen hall.now).text) header.now }
    ensures sent { SendsAck result (meaning (H.seen hall.now).text) header.now reading (P.seen port.old) (P.seen port.new) }
    ensures ends { IfErr result (λ end. end ≡ LineEnd.WriteFault) }
{
    if !header.sealed {
        write_echo(Echo::Ack, header, reply);
        return send(port, reply);
    }
    match hall.setup().key(&header.account.capitals()) {
        Some(key) => {
            let noise = port.ten();
            seal_ack(key, header, &stamp_of(reading), &noise, reply);
            send(port, reply)
        }
        None => unreachable!(),
    }
}
