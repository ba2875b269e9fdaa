// The forms in memory. The calls of doors stand in rows.
ghost use Rattle.std.specs.Prelude.{◌≡◌, false};
ghost use Rattle.arc_io.specs.Memory.{port_seen};

use crate::rows::{halves, numbers};
use crate::same::same;
use arc_doors::{Door, ListPulse, MemDoor, Pulse};
use arc_io::{ListClock, ListNoise, MemPort, MemSink, MemSource, Port, Sink, Source};
use std::alloc::Global;
use std::process::Abort;
use std::sync::Wait;
use std::sync::atomic::AtomicBool;

// A port whose input is one byte.
fn port_of(rt: &impl Abort, alloc: Global, byte: u8) -> MemPort
    ensures { (port_seen result).ended ≡ false }
{
    let bytes = [byte].to_vec(alloc).expect(rt, "memory");
    MemPort {
        source: MemSource::new(bytes, Vec::new(alloc)),
        sink: MemSink::new(alloc, Vec::new(alloc)),
        clock: ListClock::new(Vec::new(alloc)),
        noise: ListNoise::new(Vec::new(alloc)),
    }
}

// A door to three ports, whose inputs are `a`, `b` and `c`. The calls of these numbers fail.
fn door_of(rt: &impl Abort, alloc: Global, failing: Vec<u64>) -> MemDoor<MemPort> {
    let (a, b, c) = (
        port_of(rt, alloc, b'a'),
        port_of(rt, alloc, b'b'),
        port_of(rt, alloc, b'c'),
    );
    let ports = Vec::from_array(alloc, [a, b, c]).expect(rt, "memory");
    MemDoor::new(alloc, ports, failing).expect(rt, "memory")
}

// Takes a link, writes to it what it reads, and hands it back. The answer is the byte, `-` where no more links come, and `!` where
// the call failed.
fn serve<D: Door, R: Wait>(rt: &R, door: &mut D) -> char {
    let _ = door.faults();
    match door.next(rt) {
        Ok(Some(link)) => {
            let mut link = link;
            let byte = answer(&mut link);
            door.back(link);
            byte
        }
        Ok(None) => '-',
        Err(_) => '!',
    }
}

fn answer<P: Port>(port: &mut P) -> char
    requires { (P.seen port.old).ended ≡ false }
{
    let mut byte = [b'?'];
    let _ = port.read(&mut byte);
    let _ = port.write(&byte);
    char::from(byte[0])
}

// The numbers of the calls that fail, what each call gives, and how often it failed.
const CALLS: &str = "\
=abc--=0
1=!abc--=1
2=a!bc--=1
3=ab!c--=1
4=abc!--=1
5=abc-!-=1
4 1 2=!!a!bc-=3
0 9=abc---=0";

#[test]
fn gives_its_ports_over_failing_calls(rt: HostRuntime) {
    for row in CALLS.lines() {
        compare_calls(&rt, rt.alloc(), row);
    }
}

fn compare_calls(rt: &(impl Abort + Wait), alloc: Global, row: &str) {
    let (failing, rest) = halves(rt, row, '=');
    let (wants, faults) = halves(rt, rest, '=');
    let mut door = door_of(rt, alloc, numbers(rt, alloc, failing));
    compare_answers(rt, &mut door, wants);
    same(rt, door.faults(), faults.parse().expect(rt, "faults"), row);
    compare_back(rt, &door.into_back(), row);
}

fn compare_answers(rt: &(impl Abort + Wait), door: &mut MemDoor<MemPort>, wants: &str) {
    for want in wants.chars() {
        same(rt, serve(rt, door), want, wants);
    }
}

// Each port was got back, in order, and has its own byte.
fn compare_back(rt: &impl Abort, ports: &[MemPort], row: &str) {
    let [a, b, c] = ports else {
        panic!(rt; "three ports: {row}");
    };
    same(rt, a.sink.bytes(), b"a".as_slice(), row);
    same(rt, b.sink.bytes(), b"b".as_slice(), row);
    same(rt, c.sink.bytes(), b"c".as_slice(), row);
}

#[test]
fn gives_its_moments_whatever_the_flag(rt: HostRuntime) {
    let moments = [7, 253_402_300_799, 5].to_vec(rt.alloc());
    let mut pulse = ListPulse::new(moments.expect(&rt, "memory"));
    compare_tick(&rt, &mut pulse, Some(7));
    compare_tick(&rt, &mut pulse, Some(253_402_300_799));
    compare_tick(&rt, &mut pulse, Some(5));
    compare_tick(&rt, &mut pulse, None);
    compare_tick(&rt, &mut pulse, None);
    let mut empty = ListPulse::new(Vec::new(rt.alloc()));
    compare_tick(&rt, &mut empty, None);
}

// The next moment is this one, though the flag is set.
fn compare_tick<T: Pulse, R: Abort + Wait>(rt: &R, pulse: &mut T, want: Option<u64>) {
    let stop = AtomicBool::new(true);
    same(rt, pulse.next(rt, &stop), want, "a moment");
}
