// The traits of doors, mailboxes and pulses.
ghost use Rattle.std.specs.Prelude.{◌≡◌, ◌≤◌, Option, None, IfOk, IfSome};
ghost use Rattle.arc_data.specs.Moments.{IsMoment};
ghost use Rattle.arc_doors.specs.Doors.{DoorSeen, Gives, HasOneOut, IsBackWithin, after_back};
ghost use Rattle.arc_doors.specs.Mails.{IsNoStream, Receives, Sends};
ghost use Rattle.arc_doors.specs.Pulses.{Moments, GivesMoment};

use arc_data::Txt;
use arc_io::{Clock, Failed, Noise, Port, Refusal};
use std::sync::Wait;
use std::sync::atomic::AtomicBool;

/// Gives links, each a connection of a panel or a desk, and gets each back after its session.
pub trait Door {
    /// What is read from and written to in a session.
    type Link: Port + Send;

    /// What it tells at a moment.
    ghost seen: { Self → DoorSeen };

    /// Waits for the next link, and gives it. None comes where no more come. `Failed` ends the door: what was tried for it did not
    /// help, and it may be called again.
    fn next<R: Wait>(&mut self, rt: &R) -> Result<Option<Self::Link>, Failed>
        ensures { Gives (λ link. Self.Link.seen link) (Self.seen self.old) (Self.seen self.new) result };

    /// Gets a link back after its session. It cannot fail, and takes no memory.
    fn back(&mut self, link: Self::Link)
        requires { HasOneOut (Self.seen self.old).links }
        ensures { Self.seen self.new ≡ record (Self.seen self.old) { links = after_back (Self.Link.seen link) (Self.seen self.old).links } };

    /// How often taking a link has failed, those times included after which one came in the same call. It never falls, and stands
    /// still at the last value of `u64`.
    fn faults(&self) -> u64
        ensures { result ≡ (Self.seen self.now).faults };

    /// No more links are got back than were given.
    ghost within: { (door : Self) → IsBackWithin (Self.seen door).links };
}

/// How many bytes of a datagram are given at most.
pub const DATAGRAM_ROOM: usize = 8192;

/// Gives datagrams, and sends each a reply: the station's side of panels that report by UDP, with a clock and a noise.
pub trait Mailbox: Clock + Noise {
    /// Waits for the next datagram, puts its bytes, or the first 8,192 of more, to the front of the buffer, and answers how many these
    /// are: none where it has none. None comes where no more datagrams come. `Failed` says that none could be received.
    fn receive(&mut self, buf: &mut [u8; DATAGRAM_ROOM]) -> Result<Option<usize>, Failed>
        ensures bound { IfOk result (λ next. IfSome next (λ n. n ≤ 8192)) }
        ensures told { Receives (Self.seen self.old) (Self.seen self.new) result buf.new };

    /// Sends these bytes as one datagram to the sender of the last one. `Failed` says that they were not sent, as where none was
    /// received yet: nothing of them was.
    fn reply(&mut self, bytes: &[u8]) -> Result<(), Failed>
        ensures { Sends (Self.seen self.old) (Self.seen self.new) result bytes.now };

    /// Is told that a message of this account, as it came in the last datagram, was refused, and why. It does with that as a port does.
    fn refused(&mut self, _account: &Txt, _why: Refusal)
        ensures { Self.seen self.new ≡ Self.seen self.old }
    {}

    /// How often a call of `receive` has failed. It never falls, and stands still at the last value of `u64`.
    fn receive_faults(&self) -> u64
        ensures { result ≡ (Self.seen self.now).read_faults };

    /// How often a call of `reply` has failed. It never falls, and stands still at the last value of `u64`.
    fn reply_faults(&self) -> u64
        ensures { result ≡ (Self.seen self.now).write_faults };

    /// It tells nothing of a stream.
    ghost no_stream: { (mail : Self) → IsNoStream (Self.seen mail) };
}

/// Gives the moments at which to tick.
pub trait Pulse {
    /// Its moments, where it tells them.
    ghost moments: { Self → Option Moments } = { λ _. None };

    /// Waits for the next tick, and gives its moment: seconds since 1970 (GMT), before the year 10000. None ends it. One that does
    /// not tell its moments may end where it finds the flag set.
    fn next<R: Wait>(&mut self, rt: &R, stop: &AtomicBool) -> Option<u64>
        ensures bound { IfSome result (λ moment. IsMoment moment) }
        ensures told { GivesMoment (Self.moments self.old) (Self.moments self.new) result };
}
