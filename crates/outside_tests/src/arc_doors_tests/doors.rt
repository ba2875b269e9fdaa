// Doors over the loopback network.
ghost use Rattle.std.specs.Prelude.{◌≡◌, false};

use crate::same::{holds, same};
use arc_doors::{Door, Peers, TcpDoor};
use arc_io::{Port, put, read_all};
use std::alloc::Global;
use std::fmt::Display;
use std::io::{Read, Write};
use std::net::{Net, Shutdown, SocketAddr, TcpListener, TcpStream};
use std::process::Abort;
use std::random::RandomSource;
use std::sync::atomic::{AtomicU64, Ordering};
use std::sync::{Mutex, OnceLock, Wait};
use std::thread::Threads;
use std::time::Duration;
use std::{io, thread, time};

// The machine, at which two peers come to each port as soon as it is bound, and which makes no pauses.
struct Visited {
    host: HostRuntime,
    // Whether the peers send `first` and `second`, behind which no more comes.
    is_sent: bool,
    // The port that was bound last.
    bound: AtomicU64,
    // The peers that came first, until they are asked for.
    peers: OnceLock<Mutex<Option<(TcpStream, TcpStream)>>>,
}

// Written out: one call wherever one is dropped, where a derived drop is spelled out at each exit.
impl Drop for Visited {
    fn drop(self) {
        let Visited {
            host: _,
            is_sent: _,
            bound: _,
            peers,
        } = self;
        drop(peers);
    }
}

impl Visited {
    fn new(host: HostRuntime, is_sent: bool) -> Visited {
        Visited {
            host,
            is_sent,
            bound: AtomicU64::new(0),
            peers: OnceLock::new(),
        }
    }

    // A peer, which sends the bytes where peers do.
    fn peer(&self, address: SocketAddr, bytes: &[u8]) -> io::Result<TcpStream> {
        let mut stream = TcpStream::connect(&self.host, address)?;
        if self.is_sent {
            stream.write_all(bytes)?;
            stream.shutdown(Shutdown::Write)?;
        }
        Ok(stream)
    }

    // The peers that came first.
    fn peers(&self, rt: &(impl Abort + Wait)) -> (TcpStream, TcpStream) {
        let held = self.peers.get().expect(rt, "a port that was bound");
        let peers = held.lock(rt).take();
        peers.expect(rt, "peers that nobody asked for")
    }
}

impl Net for Visited {
    type Stream = TcpStream;

    type Listener = TcpListener;

    fn bind(&self, addr: SocketAddr) -> io::Result<TcpListener> {
        let listener = self.host.bind(addr)?;
        let address = listener.local_addr()?;
        let peers = (
            self.peer(address, b"first")?,
            self.peer(address, b"second")?,
        );
        let _ = self.peers.try_set(Mutex::new(Some(peers)));
        self.bound
            .store(u64::from(address.port()), Ordering::SeqCst);
        Ok(listener)
    }

    fn connect(&self, addr: SocketAddr) -> io::Result<TcpStream> {
        self.host.connect(addr)
    }
}

impl time::Clock for Visited {
    fn monotonic(&self) -> io::Result<Duration> {
        self.host.monotonic()
    }

    fn since_1970(&self) -> io::Result<Duration> {
        self.host.since_1970()
    }

    // A door that fails tries again at once.
    fn sleep(&self, _duration: Duration) {}
}

impl Eprint for Visited {
    fn eprint<D: Display + Drop>(&self, _value: D) -> io::Result<()> {
        Ok(())
    }

    fn eprintln<D: Display + Drop>(&self, _value: D) -> io::Result<()> {
        Ok(())
    }
}

impl RandomSource for Visited {
    fn fill_bytes(&self, buf: &mut [u8]) -> io::Result<()> {
        self.host.fill_bytes(buf)
    }
}

// So many doors to the port. At the port 0 they take one that is free.
fn doors_at<'a>(
    rt: &impl Abort,
    net: &'a Visited,
    alloc: Global,
    port: u64,
    n: usize,
) -> Vec<TcpDoor<&'a Visited>> {
    let port = u16::try_from(port).expect(rt, "a port");
    TcpDoor::shared(net, alloc, Peers::Operators, port, n).expect(rt, "memory")
}

// Serves one link, which gets back all that it sent, behind its end.
fn echo<D: Door, R: Wait>(rt: &R, alloc: Global, door: &mut D) {
    let _ = door.faults();
    if let Ok(Some(link)) = door.next(rt) {
        let mut link = link;
        echo_all(alloc, &mut link);
        door.back(link);
    }
}

fn echo_all<P: Port>(alloc: Global, port: &mut P)
    requires { (P.seen port.old).ended ≡ false }
{
    if let Ok(bytes) = read_all(alloc, port, 100) {
        let _ = put(port, &bytes);
    }
}

// Each door in a thread of its own.
fn echo_beside<D: Door + Send + Drop, R: Threads + Wait + Sync>(
    rt: &R,
    alloc: Global,
    doors: &mut [D],
) {
    thread::for_each_mut(rt, doors, 64, &|_, door| echo(rt, alloc, door));
}

#[test]
fn two_links_are_served_beside_each_other(rt: HostRuntime) {
    let net = Visited::new(rt, true);
    let mut doors = doors_at(&rt, &net, rt.alloc(), 0, 2);
    echo_beside(&rt, rt.alloc(), doors.as_mut_slice());
    let (first, second) = net.peers(&rt);
    compare_answer(&rt, rt.alloc(), first, "first");
    compare_answer(&rt, rt.alloc(), second, "second");
}

fn compare_answer(rt: &impl Abort, alloc: Global, mut stream: TcpStream, want: &str) {
    let mut answer = String::new(alloc);
    let read = stream.read_to_string(&mut answer);
    read.expect(rt, "an answer");
    same(rt, answer.as_str(), want, "what comes back");
}

// Once nothing listens any more, the port can be bound at once, though a connection that this side closed first still lingers.
#[test]
fn a_port_that_is_listened_to_is_taken(rt: HostRuntime) {
    let net = Visited::new(rt, false);
    let mut doors = doors_at(&rt, &net, rt.alloc(), 0, 1);
    give_back_first(&rt, &mut doors);
    drop(net.peers(&rt));
    let bound = net.bound.swap(0, Ordering::SeqCst);
    let mut others = doors_at(&rt, &net, rt.alloc(), bound, 1);
    compare_taken(&rt, &mut others);
    drop(doors);
    give_back_first(&rt, &mut others);
    same(&rt, net.bound.load(Ordering::SeqCst), bound, "the port");
}

// The port of the doors is another's.
fn compare_taken(rt: &(impl Abort + Wait), doors: &mut [TcpDoor<&Visited>]) {
    let door = doors.first_mut().expect(rt, "a door");
    holds(rt, door.next(rt).is_err(), "a port that is taken");
    same(rt, door.faults(), 600, "faults");
}

// Takes a link and hands it back at once.
fn give_back_first(rt: &(impl Abort + Wait), doors: &mut [TcpDoor<&Visited>]) {
    let door = doors.first_mut().expect(rt, "a door");
    let link = door.next(rt).expect(rt, "a call").expect(rt, "a link");
    door.back(link);
}
