// A port over a connection.
ghost use Rattle.std.specs.Prelude.{◌≡◌, [], false, IfOk};
ghost use Rattle.std.specs.Io.{ReadsAtMost, WritesAtMost};
ghost use Rattle.arc_io.specs.Seen.{untold};

use super::peers::{Patience, Peers};
use arc_data::Txt;
use arc_io::{
    Clock, Ends, Failed, Noise, Port, RealClock, RealNoise, Refusal, RefusalLines, Sink, Source,
};
use std::io::{ErrorKind, Read, Write};
use std::net::{OpenStream, SocketAddr};
use std::random::RandomSource;
use std::time::Duration;
use std::{io, time};

// For how many seconds a peer may take nothing.
const STALL: u64 = 60;

// How often a call is made again that a signal broke off. A process that is stopped and goes on meets that in each call that has
// a limit of time.
const INTERRUPTIONS: u32 = 1_000;

/// A port over a connection, with the machine's clock and random source. What is written is sent at once.
/// An error of the connection is a fault, and so is a read for which it was silent for longer than its peers may be, a write of which
/// nothing was taken for a minute, and a piece of which nothing is taken. What is refused is told on standard error, with the peer's
/// address.
#[derive(Drop)]
pub struct TcpPort<S: Read + Write, R: time::Clock + RandomSource> {
    stream: S,
    // The peer, where the connection tells it.
    peer: Option<SocketAddr>,
    patience: Patience<R>,
    rt: R,
    pub(super) refusals: RefusalLines,
    clock: RealClock<R>,
    noise: RealNoise<R>,
    ended: bool,
    read_faults: u64,
    write_faults: u64,
}

impl<S: Read + Write + OpenStream + Drop, R: time::Clock + RandomSource + Copy> TcpPort<S, R> {
    /// A port over this connection of such a peer, and this runtime. The error is the connection's, where its limits can't be set, or the
    /// clock's.
    pub fn new(stream: S, rt: R, peers: Peers) -> io::Result<Self>
        ensures not_ended { IfOk result (λ port. (⟦<TcpPort<S, R> as Ends>⟧.seen port).ended ≡ false) }
        ensures read_faults { IfOk result (λ port. (⟦<TcpPort<S, R> as Ends>⟧.seen port).read_faults ≡ 0) }
        ensures write_faults { IfOk result (λ port. (⟦<TcpPort<S, R> as Ends>⟧.seen port).write_faults ≡ 0) }
    {
        stream.set_nodelay(true)?;
        stream.set_write_timeout(Some(Duration::from_secs(STALL)))?;
        let patience = Patience::new(rt, peers)?;
        let peer = stream.peer_addr().ok();
        Ok(TcpPort {
            stream,
            peer,
            patience,
            rt,
            refusals: RefusalLines::new(),
            clock: RealClock::new(rt),
            noise: RealNoise::new(rt),
            ended: false,
            read_faults: 0,
            write_faults: 0,
        })
    }
}

impl<S: Read + Write, R: time::Clock + RandomSource> Ends for TcpPort<S, R> {
    ghost seen = { λ p. record untold { ended = p.ended; read_faults = p.read_faults; write_faults = p.write_faults } };
}

impl<S: Read + Write + OpenStream, R: time::Clock + RandomSource> Source for TcpPort<S, R> {
    fn read(&mut self, buf: &mut [u8]) -> Result<usize, Failed> {
        match receive_in_time(&mut self.stream, &mut self.patience, buf) {
            Ok(count) => {
                self.ended = count == 0 && !buf.is_empty();
                Ok(count)
            }
            Err(_) => {
                self.read_faults = self.read_faults.saturating_add(1);
                Err(Failed)
            }
        }
    }

    fn read_faults(&self) -> u64 {
        self.read_faults
    }
}

impl<S: Read + Write, R: time::Clock + RandomSource> Sink for TcpPort<S, R> {
    fn write(&mut self, bytes: &[u8]) -> Result<usize, Failed> {
        match send(&mut self.stream, bytes) {
            Ok(count) => Ok(count),
            Err(_) => {
                self.write_faults = self.write_faults.saturating_add(1);
                Err(Failed)
            }
        }
    }

    fn write_faults(&self) -> u64 {
        self.write_faults
    }
}

impl<S: Read + Write, R: time::Clock + RandomSource> Clock for TcpPort<S, R> {
    fn now(&mut self) -> u64 {
        self.clock.now()
    }
}

impl<S: Read + Write, R: time::Clock + RandomSource> Noise for TcpPort<S, R> {
    fn ten(&mut self) -> [u8; 10] {
        self.noise.ten()
    }
}

impl<S: Read + Write + OpenStream, R: time::Clock + RandomSource + Eprint> Port for TcpPort<S, R> {
    fn refused(&mut self, account: &Txt, why: Refusal) {
        self.refusals.tell(&self.rt, account, self.peer, why);
    }
}

// Reads the next bytes, where they come in time.
fn receive_in_time<S: Read + OpenStream, R: time::Clock>(
    stream: &mut S,
    patience: &mut Patience<R>,
    buf: &mut [u8],
) -> io::Result<usize>
    ensures { ReadsAtMost result buf.new }
{
    patience.allow(stream)?;
    let count = receive(stream, buf)?;
    patience.note(stream, &buf[..count])?;
    Ok(count)
}

// Reads the next bytes.
fn receive(stream: &mut impl Read, buf: &mut [u8]) -> io::Result<usize>
    ensures { ReadsAtMost result buf.new }
{
    for _ in 0..INTERRUPTIONS {
        match stream.read(buf) {
            Err(error) if error.kind() == ErrorKind::Interrupted => {}
            answer => return answer,
        }
    }
    Err(ErrorKind::Interrupted.into())
}

// Writes some of the bytes. It is an error to take nothing of some.
fn send(stream: &mut impl Write, bytes: &[u8]) -> io::Result<usize>
    ensures bound { WritesAtMost result bytes.now }
    ensures some { IfOk result (λ count. count ≡ 0 → bytes.now ≡ []) }
{
    for _ in 0..INTERRUPTIONS {
        match stream.write(bytes) {
            Err(error) if error.kind() == ErrorKind::Interrupted => {}
            Ok(0) if !bytes.is_empty() => return Err(ErrorKind::WriteZero.into()),
            answer => return answer,
        }
    }
    Err(ErrorKind::Interrupted.into())
}
