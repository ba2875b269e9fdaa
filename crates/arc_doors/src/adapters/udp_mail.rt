// A mailbox at a port of the network.
ghost use Rattle.std.specs.Prelude.{◌≡◌, ◌≤◌, IfOk, refl};
ghost use Rattle.arc_io.specs.Causes.{HasCause};
ghost use Rattle.arc_io.specs.Seen.{untold};

use super::tcp_door::{PAUSE, TRIES};
use crate::{DATAGRAM_ROOM, Mailbox};
use arc_data::Txt;
use arc_io::{Clock, Ends, Failed, Noise, RealClock, RealNoise, Refusal, RefusalLines};
use std::io::ErrorKind;
use std::net::{Net, SocketAddr, UdpSocket};
use std::random::RandomSource;
use std::time::Duration;
use std::{io, thread, time};

// How often in a row a call is made again at once that a signal broke off, or that told of an earlier reply which nobody took.
const INTERRUPTIONS: u32 = 1_000;

/// A mailbox at a port of this machine, at 127.0.0.1, with the machine's clock and random source. The port is bound at the first call of
/// `receive`.
///
/// An answer of the network that an earlier reply did not arrive, as where its receiver is gone, is no fault: the call goes on. Receiving
/// may fail for a cause that passes, as another program that has the port: that is counted, said on standard error once in a call, and tried
/// again after a pause. The call fails where no try of a minute received a datagram. A reply is not tried again: it fails where the system
/// does not take it, as one that has no way to its receiver, or is longer than 65,507 bytes, and says so on standard error. Panels send
/// again what is not answered. A datagram that claims to come from the port 0 can't be answered, and is passed over. What is refused is told
/// on standard error, with the sender's address.
#[derive(Drop)]
pub struct UdpMail<R: Net + time::Clock + RandomSource + Eprint> {
    rt: R,
    port: u16,
    socket: Option<UdpSocket>,
    // Who sent the last datagram.
    sender: Option<SocketAddr>,
    clock: RealClock<R>,
    noise: RealNoise<R>,
    refusals: RefusalLines,
    read_faults: u64,
    write_faults: u64,
}

impl<R: Net + time::Clock + RandomSource + Eprint + Copy> UdpMail<R> {
    /// A mailbox at this port, over this runtime. Nothing is bound yet. At the port 0 it takes one that is free.
    pub fn new(rt: R, port: u16) -> Self
        ensures read_faults { (⟦<UdpMail<R> as Ends>⟧.seen result).read_faults ≡ 0 }
        ensures write_faults { (⟦<UdpMail<R> as Ends>⟧.seen result).write_faults ≡ 0 }
    {
        UdpMail {
            rt,
            port,
            socket: None,
            sender: None,
            clock: RealClock::new(rt),
            noise: RealNoise::new(rt),
            refusals: RefusalLines::new(),
            read_faults: 0,
            write_faults: 0,
        }
    }
}

impl<R: Net + time::Clock + RandomSource + Eprint> Ends for UdpMail<R> {
    ghost seen = { λ m. record untold { read_faults = m.read_faults; write_faults = m.write_faults } };
}

impl<R: Net + time::Clock + RandomSource + Eprint> Clock for UdpMail<R> {
    fn now(&mut self) -> u64 {
        self.clock.now()
    }
}

impl<R: Net + time::Clock + RandomSource + Eprint> Noise for UdpMail<R> {
    fn ten(&mut self) -> [u8; 10] {
        self.noise.ten()
    }
}

impl<R: Net + time::Clock + RandomSource + Eprint> Mailbox for UdpMail<R> {
    ghost no_stream = { λ _. record { left = refl; ended = refl; written = refl } };

    fn receive(&mut self, buf: &mut [u8; DATAGRAM_ROOM]) -> Result<Option<usize>, Failed> {
        let count = take_datagram(
            &self.rt,
            self.port,
            &mut self.socket,
            &mut self.sender,
            &mut self.read_faults,
            buf,
        )?;
        Ok(Some(count))
    }

    fn reply(&mut self, bytes: &[u8]) -> Result<(), Failed> {
        match send(&self.socket, self.sender, bytes) {
            Ok(()) => Ok(()),
            Err(error) => {
                tell_unsent(&self.rt, self.sender, error);
                self.write_faults = self.write_faults.saturating_add(1);
                Err(Failed)
            }
        }
    }

    fn refused(&mut self, account: &Txt, why: Refusal) {
        self.refusals.tell(&self.rt, account, self.sender, why);
    }

    fn receive_faults(&self) -> u64 {
        self.read_faults
    }

    fn reply_faults(&self) -> u64 {
        self.write_faults
    }
}

// Receives the next datagram, keeps its sender, and counts each time that fails.
fn take_datagram<R: Net + time::Clock + Eprint>(
    rt: &R,
    port: u16,
    socket: &mut Option<UdpSocket>,
    sender: &mut Option<SocketAddr>,
    faults: &mut u64,
    buf: &mut [u8; DATAGRAM_ROOM],
) -> Result<usize, Failed>
    ensures bound { IfOk result (λ n. n ≤ 8192) }
    ensures cause { HasCause faults.old faults.new result }
{
    let mut tries = 0;
    loop {
        match receive_at(rt, port, socket, buf) {
            Ok((count, from)) => {
                *sender = Some(from);
                return Ok(count);
            }
            Err(error) => tell(rt, port, tries, error),
        }
        *faults = faults.saturating_add(1);
        tries += 1;
        if tries == TRIES {
            return Err(Failed);
        }
        thread::sleep(rt, Duration::from_millis(PAUSE));
    }
}

// Says that no datagram was received, at the first try of a call and at the last.
fn tell<R: Eprint>(rt: &R, port: u16, tries: u32, error: io::Error) {
    if tries == 0 {
        let _ = eprintln!(rt; "no datagram is received at port {port}, it is tried again: {error}");
    } else if tries == TRIES - 1 {
        let _ = eprintln!(rt; "no datagram is received at port {port} any more: {error}");
    }
}

// Says that a reply was not sent.
fn tell_unsent<R: Eprint>(rt: &R, sender: Option<SocketAddr>, error: io::Error) {
    let _ = match sender {
        Some(sender) => eprintln!(rt; "no reply is sent to {sender}: {error}"),
        None => eprintln!(rt; "no reply is sent, as no datagram was received: {error}"),
    };
}

// Receives a datagram at a socket, which is bound first where it is not yet.
fn receive_at<R: Net + Eprint>(
    rt: &R,
    port: u16,
    socket: &mut Option<UdpSocket>,
    buf: &mut [u8; DATAGRAM_ROOM],
) -> io::Result<(usize, SocketAddr)>
    ensures { IfOk result (λ got. got.0 ≤ 8192) }
{
    if let Some(bound) = socket {
        return receive_answerable(bound, buf);
    }
    let address = SocketAddr::from(([127, 0, 0, 1], port));
    let bound = UdpSocket::bind(rt, address)?;
    let _ = eprintln!(rt; "datagrams are received at {address}");
    let outcome = receive_answerable(&bound, buf);
    *socket = Some(bound);
    outcome
}

// Receives a datagram that can be answered. One that claims to come from the port 0 can't: it is passed over.
fn receive_answerable(
    socket: &UdpSocket,
    buf: &mut [u8; DATAGRAM_ROOM],
) -> io::Result<(usize, SocketAddr)>
    ensures { IfOk result (λ got. got.0 ≤ 8192) }
{
    for _ in 0..u64::MAX {
        match receive(socket, buf) {
            Ok((_, from)) if from.port() == 0 => {}
            answer => return answer,
        }
    }
    Err(ErrorKind::Interrupted.into())
}

// Receives a datagram.
fn receive(socket: &UdpSocket, buf: &mut [u8; DATAGRAM_ROOM]) -> io::Result<(usize, SocketAddr)>
    ensures { IfOk result (λ got. got.0 ≤ 8192) }
{
    for _ in 0..INTERRUPTIONS {
        match socket.recv_from(buf) {
            Err(error) if is_passing(error.kind()) => {}
            answer => return answer,
        }
    }
    Err(ErrorKind::Interrupted.into())
}

// Sends the bytes to the sender of the last datagram.
fn send(socket: &Option<UdpSocket>, sender: Option<SocketAddr>, bytes: &[u8]) -> io::Result<()> {
    let (Some(socket), Some(sender)) = (socket, sender) else {
        return Err(ErrorKind::NotConnected.into());
    };
    for _ in 0..INTERRUPTIONS {
        match socket.send_to(bytes, sender) {
            Ok(_) => return Ok(()),
            Err(error) if is_passing(error.kind()) => {}
            Err(error) => return Err(error),
        }
    }
    Err(ErrorKind::Interrupted.into())
}

// Whether a call goes on behind this error: a signal broke it off, or the network answered to an earlier reply.
fn is_passing(kind: ErrorKind) -> bool {
    matches!(
        kind,
        ErrorKind::Interrupted
            | ErrorKind::ConnectionRefused
            | ErrorKind::ConnectionReset
            | ErrorKind::ConnectionAborted
            | ErrorKind::HostUnreachable
            | ErrorKind::NetworkUnreachable
    )
}
