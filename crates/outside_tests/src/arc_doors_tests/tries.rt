// What the adapters do where the machine fails them.
ghost use Rattle.std.specs.Prelude.{◌≡◌, false};

use super::machine::{Machine, Peer};
use crate::rows::numbers;
use crate::same::same;
use arc_doors::{Door, Peers, Pulse, SecondPulse, TcpDoor, TcpPort};
use arc_io::{Clock, Ends, Noise, Sink, Source};
use std::alloc::Global;
use std::net::{SocketAddr, TcpStream};
use std::process::Abort;
use std::sync::Wait;
use std::sync::atomic::{AtomicBool, Ordering};

// How many connections fail before one comes, whether a link is given (1 where it is), the faults, for how many milliseconds the door
// paused, and how many lines stand on standard error: that it listens, the first failure of ten minutes, and that it has given up.
const TRIES: &str = "\
0 1 0 0 1
1 1 1 100 2
599 1 599 59900 2
600 0 600 59900 3
601 0 600 59900 3";

#[test]
fn takes_a_connection_after_pauses(rt: HostRuntime) {
    for row in TRIES.lines() {
        compare_tries(&rt, rt.alloc(), row);
    }
}

fn compare_tries(rt: &(impl Abort + Wait), alloc: Global, row: &str) {
    let numbers = numbers(rt, alloc, row);
    let (failures, wants) = numbers.split_first().expect(rt, "a row");
    let told = asked(rt, alloc, &Machine::new(*failures, 0));
    same(rt, told.as_slice(), wants, row);
}

// Whether the first of two doors gives a link, its faults, for how long it paused, and what it said.
fn asked(rt: &(impl Abort + Wait), alloc: Global, machine: &Machine) -> [u64; 4] {
    let doors = TcpDoor::shared(machine, alloc, Peers::Panels, 9_000, 2);
    let mut doors = doors.expect(rt, "memory");
    let door = doors.first_mut().expect(rt, "a door");
    let is_given = matches!(&door.next(rt), Ok(Some(_)));
    let slept = machine.slept.load(Ordering::SeqCst);
    let said = machine.said.load(Ordering::SeqCst);
    [u64::from(is_given), door.faults(), slept, said]
}

#[test]
fn a_port_that_cannot_be_bound_is_tried_for_a_minute(rt: HostRuntime) {
    let mut machine = Machine::new(0, 0);
    machine.binds = false;
    let told = asked(&rt, rt.alloc(), &machine);
    same(&rt, told, [0, 600, 59_900, 2], "given, faults, slept, said");
}

// How often each call is broken off; what a read into two bytes `!` gives (9 where it fails) and the first of them then, 120 being `x`
// and 33 `!`; what a write of three gives; and the faults of reads and of writes.
const INTERRUPTIONS: &str = "\
0 1 120 2 0 0
3 1 120 2 0 0
999 1 120 2 0 0
1000 9 33 2 1 0
2000 9 33 9 1 1";

#[test]
fn a_call_that_is_broken_off_is_made_again(rt: HostRuntime) {
    for row in INTERRUPTIONS.lines() {
        compare_interruptions(&rt, rt.alloc(), row);
    }
}

fn compare_interruptions(rt: &impl Abort, alloc: Global, row: &str) {
    let numbers = numbers(rt, alloc, row);
    let (interruptions, wants) = numbers.split_first().expect(rt, "a row");
    let told = told_over(rt, &Machine::new(0, *interruptions));
    same(rt, told.as_slice(), wants, row);
}

// A port of the machine.
fn port_of<'a>(rt: &impl Abort, machine: &'a Machine) -> TcpPort<Peer, &'a Machine>
    ensures { (⟦<TcpPort<Peer, &'a Machine> as Ends>⟧.seen result).ended ≡ false }
{
    let address = SocketAddr::from(([127, 0, 0, 1], 9_000));
    let stream = TcpStream::connect(&machine, address).expect(rt, "a connection");
    TcpPort::new(stream, machine, Peers::Panels).expect(rt, "a port")
}

fn told_over(rt: &impl Abort, machine: &Machine) -> [u64; 5] {
    let mut port = port_of(rt, machine);
    let mut buf = [b'!'; 2];
    let read = port.read(&mut buf).unwrap_or(9) as u64;
    let (reads, written) = (port.read_faults(), port.write(b"abc"));
    let written = written.unwrap_or(9) as u64;
    [read, u64::from(buf[0]), written, reads, port.write_faults()]
}

#[test]
fn a_port_has_the_clock_and_the_noise_of_its_machine(rt: HostRuntime) {
    let machine = Machine::new(0, 0);
    let mut port = port_of(&rt, &machine);
    same(&rt, port.now(), 5, "the time");
    same(&rt, port.ten(), [7; 10], "the noise");
}

// The clock fails at the fourth reading. The flag is looked at when the second is over.
#[test]
fn a_second_passes_before_each_moment(rt: HostRuntime) {
    let machine = Machine::new(0, 0);
    let mut pulse = SecondPulse::new(&machine);
    compare_tick(&rt, &mut pulse, false, Some(5));
    compare_tick(&rt, &mut pulse, false, Some(6));
    compare_tick(&rt, &mut pulse, false, Some(7));
    compare_tick(&rt, &mut pulse, false, Some(7));
    compare_tick(&rt, &mut pulse, true, None);
    same(&rt, machine.slept.load(Ordering::SeqCst), 5_000, "slept");
    same(&rt, machine.readings.load(Ordering::SeqCst), 9, "readings");
}

// The next moment by this flag.
fn compare_tick(
    rt: &(impl Abort + Wait),
    pulse: &mut SecondPulse<&Machine>,
    is_set: bool,
    want: Option<u64>,
) {
    let stop = AtomicBool::new(is_set);
    same(rt, pulse.next(rt, &stop), want, "a moment");
}
