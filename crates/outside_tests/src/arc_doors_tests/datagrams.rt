// A mailbox over the loopback network.
use crate::same::{holds, same};
use arc_doors::{DATAGRAM_ROOM, Mailbox, UdpMail};
use arc_io::Failed;
use std::fmt::Display;
use std::net::{Net, SocketAddr, TcpListener, TcpStream, UdpSocket};
use std::process::Abort;
use std::random::RandomSource;
use std::sync::atomic::{AtomicU64, Ordering};
use std::time::Duration;
use std::{io, time};

// The machine, whose port is taken at the first tries. As soon as it is bound, datagrams are sent to it, by a peer or by one that is gone
// then. It makes no pauses, and counts them and what was said.
#[derive(Drop)]
struct Sent<'a> {
    host: HostRuntime,
    peer: Option<&'a UdpSocket>,
    datagrams: &'a [&'a [u8]],
    // How many tries find the port taken.
    taken: u64,
    tries: AtomicU64,
    slept: AtomicU64,
    said: AtomicU64,
}

impl<'a> Net for Sent<'a> {
    type Stream = TcpStream;

    type Listener = TcpListener;

    fn bind(&self, addr: SocketAddr) -> io::Result<TcpListener> {
        self.host.bind(addr)
    }

    fn connect(&self, addr: SocketAddr) -> io::Result<TcpStream> {
        self.host.connect(addr)
    }

    fn bind_udp(&self, addr: SocketAddr) -> io::Result<UdpSocket> {
        if self.tries.fetch_add(1, Ordering::SeqCst) < self.taken {
            return Err(io::ErrorKind::AddrInUse.into());
        }
        let socket = self.host.bind_udp(addr)?;
        match self.peer {
            Some(peer) => self.send_all(peer, &socket)?,
            None => {
                let gone = UdpSocket::bind(&self.host, "127.0.0.1:0")?;
                self.send_all(&gone, &socket)?;
            }
        }
        Ok(socket)
    }
}

impl<'a> Sent<'a> {
    fn send_all(&self, from: &UdpSocket, to: &UdpSocket) -> io::Result<()> {
        for datagram in self.datagrams {
            let _ = from.send_to(datagram, to.local_addr()?)?;
        }
        Ok(())
    }
}

impl<'a> time::Clock for Sent<'a> {
    fn monotonic(&self) -> io::Result<Duration> {
        self.host.monotonic()
    }

    fn since_1970(&self) -> io::Result<Duration> {
        self.host.since_1970()
    }

    fn sleep(&self, duration: Duration) {
        let millis = u64::try_from(duration.as_millis()).unwrap_or(0);
        self.slept.fetch_add(millis, Ordering::SeqCst);
    }
}

impl<'a> RandomSource for Sent<'a> {
    fn fill_bytes(&self, buf: &mut [u8]) -> io::Result<()> {
        self.host.fill_bytes(buf)
    }
}

impl<'a> Eprint for Sent<'a> {
    fn eprint<D: Display + Drop>(&self, _value: D) -> io::Result<()> {
        Ok(())
    }

    fn eprintln<D: Display + Drop>(&self, _value: D) -> io::Result<()> {
        self.said.fetch_add(1, Ordering::SeqCst);
        Ok(())
    }
}

fn peer_of(rt: &impl Abort, host: HostRuntime) -> UdpSocket {
    UdpSocket::bind(&host, "127.0.0.1:0").expect(rt, "a port")
}

fn machine<'a>(
    host: HostRuntime,
    peer: Option<&'a UdpSocket>,
    datagrams: &'a [&'a [u8]],
    taken: u64,
) -> Sent<'a> {
    Sent {
        host,
        peer,
        datagrams,
        taken,
        tries: AtomicU64::new(0),
        slept: AtomicU64::new(0),
        said: AtomicU64::new(0),
    }
}

// The next datagram has so many bytes, the first of which are these.
fn compare_next<M: Mailbox>(rt: &impl Abort, mail: &mut M, count: usize, front: &[u8]) {
    let mut buf = [b'?'; DATAGRAM_ROOM];
    same(rt, mail.receive(&mut buf), Ok(Some(count)), "a datagram");
    holds(rt, buf.starts_with(front), "its bytes");
}

// What a peer receives next.
fn compare_answer(rt: &impl Abort, peer: &UdpSocket, want: &[u8]) {
    let mut buf = [b'?'; 16];
    let limit = Some(Duration::from_secs(10));
    peer.set_read_timeout(limit).expect(rt, "a limit");
    let (count, _) = peer.recv_from(&mut buf).expect(rt, "an answer");
    same(rt, buf.get(..count), Some(want), "an answer");
}

#[test]
fn datagrams_are_answered_to_their_senders(rt: HostRuntime) {
    let peer = peer_of(&rt, rt);
    let long = [b'x'; 65_507];
    let datagrams = [
        b"frame".as_slice(),
        b"".as_slice(),
        long.as_slice(),
        b"last".as_slice(),
    ];
    let net = machine(rt, Some(&peer), &datagrams, 0);
    let mut mail = UdpMail::new(&net, 0);
    same(&rt, mail.reply(b"early"), Err(Failed), "a reply to nobody");
    compare_next(&rt, &mut mail, 5, b"frame");
    same(&rt, mail.reply(b"ack"), Ok(()), "a reply");
    compare_next(&rt, &mut mail, 0, b"???");
    compare_next(&rt, &mut mail, 8_192, b"xxx");
    compare_next(&rt, &mut mail, 4, b"last");
    same(&rt, mail.reply(b""), Ok(()), "a reply without a byte");
    same(
        &rt,
        mail.reply([b'y'; 65_508].as_slice()),
        Err(Failed),
        "too long",
    );
    compare_answer(&rt, &peer, b"ack");
    compare_answer(&rt, &peer, b"");
    let faults = (mail.receive_faults(), mail.reply_faults());
    same(&rt, faults, (0, 2), "faults");
}

// Whoever is gone takes no reply, and the network says so. That is no fault of a later call.
#[test]
fn a_sender_that_is_gone_does_no_harm(rt: HostRuntime) {
    let net = machine(rt, None, &[b"bye", b"more", b"last"], 0);
    let mut mail = UdpMail::new(&net, 0);
    compare_next(&rt, &mut mail, 3, b"bye");
    same(&rt, mail.reply(b"ack"), Ok(()), "a reply");
    compare_next(&rt, &mut mail, 4, b"more");
    same(
        &rt,
        mail.reply(b"ack"),
        Ok(()),
        "a reply behind one that nobody took",
    );
    compare_next(&rt, &mut mail, 4, b"last");
    let faults = (mail.receive_faults(), mail.reply_faults());
    same(&rt, faults, (0, 0), "faults");
}

// How many tries find the port taken, and then whether a datagram is received, the faults, for how many milliseconds it paused, and what
// stands on standard error: the first failure of a call, and the last, or that it is bound.
#[test]
fn a_port_that_is_taken_is_tried_for_a_minute(rt: HostRuntime) {
    let peer = peer_of(&rt, rt);
    compare_taken(&rt, &machine(rt, Some(&peer), &[b"a"], 0), [1, 0, 0, 1]);
    compare_taken(
        &rt,
        &machine(rt, Some(&peer), &[b"a"], 599),
        [1, 599, 59_900, 2],
    );
    compare_taken(
        &rt,
        &machine(rt, Some(&peer), &[b"a"], 600),
        [0, 600, 59_900, 2],
    );
}

fn compare_taken(rt: &impl Abort, net: &Sent, want: [u64; 4]) {
    let mut mail = UdpMail::new(net, 0);
    let mut buf = [0; DATAGRAM_ROOM];
    let is_received = mail.receive(&mut buf).is_ok();
    let slept = net.slept.load(Ordering::SeqCst);
    let said = net.said.load(Ordering::SeqCst);
    let told = [u64::from(is_received), mail.receive_faults(), slept, said];
    same(rt, told, want, "received, faults, slept, said");
}
