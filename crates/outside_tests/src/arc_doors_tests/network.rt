// A port over a real connection, and a second of the real clock.
ghost use Rattle.std.specs.Prelude.{◌≡◌, false};

use crate::same::{holds, same};
use arc_doors::{Peers, Pulse, SecondPulse, TcpPort};
use arc_io::{Failed, Port, Sink};
use std::io::Write;
use std::net::{TcpListener, TcpStream};
use std::process::Abort;
use std::sync::atomic::AtomicBool;
use std::time::{Duration, Instant};

#[test]
fn a_silent_peer_is_given_up(rt: HostRuntime) {
    let listener = TcpListener::bind(&rt, "127.0.0.1:0").expect(&rt, "a port");
    let address = listener.local_addr().expect(&rt, "an address");
    let mut peer = TcpStream::connect(&rt, address).expect(&rt, "a connection");
    let (stream, _) = listener.accept().expect(&rt, "a peer");
    let handle = stream.try_clone().expect(&rt, "a handle");
    let port = TcpPort::new(stream, rt, Peers::Panels);
    let mut port = port.expect(&rt, "a port");
    peer.write_all(b"fram\r").expect(&rt, "five bytes");
    compare_limits(&rt, &mut port, &handle);
    compare_faults(&rt, &mut port, &handle, &mut peer);
    drop(peer);
}

// The limits of the first frame, and behind it.
fn compare_limits<P: Port>(rt: &impl Abort, port: &mut P, handle: &TcpStream)
    requires { (P.seen port.old).ended ≡ false }
    ensures { (P.seen port.new).ended ≡ false }
{
    let minute = Some(Duration::from_secs(60));
    holds(rt, handle.nodelay().expect(rt, "an option"), "sent at once");
    same(
        rt,
        handle.write_timeout().expect(rt, "a limit"),
        minute,
        "limit of writes",
    );
    let mut buf = [0; 4];
    let Ok(4) = port.read(&mut buf) else {
        panic!(rt; "four bytes");
    };
    same(rt, buf, *b"fram", "four bytes");
    let left = handle.read_timeout().expect(rt, "a limit");
    holds(rt, left.is_some() && left <= minute, "limit of reads");
    let Ok(1) = port.read(&mut buf) else {
        panic!(rt; "the last byte");
    };
    let silence = Some(Duration::from_secs(180));
    same(
        rt,
        handle.read_timeout().expect(rt, "a limit"),
        silence,
        "limit of reads",
    );
}

// The limits stand at the connection, where the test makes them short.
fn compare_faults<P: Port>(rt: &impl Abort, port: &mut P, handle: &TcpStream, peer: &mut TcpStream)
    requires { (P.seen port.old).ended ≡ false }
{
    let short = Some(Duration::from_millis(20));
    handle.set_read_timeout(short).expect(rt, "a limit");
    let mut buf = [0; 4];
    let Err(Failed) = port.read(&mut buf) else {
        panic!(rt; "a fault");
    };
    peer.write_all(b"more").expect(rt, "four bytes");
    let Ok(4) = port.read(&mut buf) else {
        panic!(rt; "bytes behind a fault");
    };
    same(
        rt,
        (buf, port.read_faults()),
        (*b"more", 1),
        "behind a fault",
    );
    handle.set_write_timeout(short).expect(rt, "a limit");
    holds(rt, is_stalled(port), "a stall");
    same(rt, port.write_faults(), 1, "faults of writes");
}

// Whether writes to a peer that reads nothing come to a fault.
fn is_stalled<K: Sink>(sink: &mut K) -> bool {
    for _ in 0..100_000u32 {
        if sink.write([b'x'; 4_096].as_slice()).is_err() {
            return true;
        }
    }
    false
}

#[test]
fn a_second_is_slept(rt: HostRuntime) {
    let start = Instant::now(&rt).expect(&rt, "a clock");
    let moment = SecondPulse::new(rt).next(&rt, &AtomicBool::new(false));
    let slept = start.elapsed(&rt).expect(&rt, "a clock");
    holds(&rt, slept >= Duration::from_millis(990), "a second");
    holds(
        &rt,
        moment.expect(&rt, "a moment") > 1_577_836_800,
        "after 2020",
    );
}
