// The adapters, over streams and a machine of the test's own, and over a real file.
ghost use Rattle.std.specs.Prelude.{◌≡◌, false};

use super::temporary_path;
use crate::same::{holds, same};
use arc_io::{
    Clock, Failed, FileSource, Noise, Port, ReadEnd, RealClock, RealNoise, Sink, Source, StdPort,
    put, read_all,
};
use std::alloc::Global;
use std::cell::Cell;
use std::fmt::Display;
use std::process::Abort;
use std::random::RandomSource;
use std::time::Duration;
use std::{fs, io, time};

// A machine whose clock gives the seconds of a list and then fails, and whose random source gives sevens if it works.
#[derive(Drop)]
struct Machine {
    seconds: [u64; 4],
    at: Cell<usize>,
    is_random: bool,
}

impl time::Clock for Machine {
    fn monotonic(&self) -> io::Result<Duration> {
        self.since_1970()
    }

    fn since_1970(&self) -> io::Result<Duration> {
        let at = self.at.get();
        self.at.set(at.saturating_add(1));
        match self.seconds.get(at) {
            Some(seconds) => Ok(Duration::from_secs(*seconds)),
            None => Err(io::ErrorKind::Other.into()),
        }
    }
}

impl RandomSource for Machine {
    fn fill_bytes(&self, buf: &mut [u8]) -> io::Result<()> {
        buf.fill(7);
        if self.is_random {
            Ok(())
        } else {
            Err(io::ErrorKind::Other.into())
        }
    }
}

// It has nobody to tell anything.
impl Eprint for Machine {
    fn eprint<D: Display + Drop>(&self, _value: D) -> io::Result<()> {
        Ok(())
    }

    fn eprintln<D: Display + Drop>(&self, _value: D) -> io::Result<()> {
        Ok(())
    }
}

fn machine_of(seconds: [u64; 4], is_random: bool) -> Machine {
    Machine {
        seconds,
        at: Cell::new(0),
        is_random,
    }
}

#[test]
fn a_clock_keeps_its_last_reading(rt: HostRuntime) {
    compare_readings(&rt, [5, 9, 8, 10], [5, 9, 8, 10, 10, 10]);
    let late = [253_402_300_800, 3, 253_402_300_799, u64::MAX];
    let last = 253_402_300_799;
    compare_readings(&rt, late, [0, 3, last, last, last, last]);
}

// Compares what a clock says over a machine that gives these seconds.
fn compare_readings(rt: &impl Abort, seconds: [u64; 4], want: [u64; 6]) {
    let mut clock = RealClock::new(machine_of(seconds, true));
    for reading in want {
        same(rt, clock.now(), reading, "a reading");
    }
}

#[test]
fn a_broken_random_source_gives_zeros(rt: HostRuntime) {
    same(&rt, ten_of(true), [7; 10], "a source that works");
    same(&rt, ten_of(false), [0; 10], "a broken source");
}

fn ten_of(is_random: bool) -> [u8; 10] {
    RealNoise::new(machine_of([0; 4], is_random)).ten()
}

#[test]
fn the_machine_has_a_clock_and_a_random_source(rt: HostRuntime) {
    // The time is after 2020, and twenty random bytes hardly repeat.
    holds(&rt, RealClock::new(rt).now() > 1_577_836_800, "the time");
    let mut noise = RealNoise::new(rt);
    holds(&rt, noise.ten() != noise.ten(), "the noise");
}

// A writer that takes so many bytes in each call, and whose flush may fail.
#[derive(Drop)]
struct Weak {
    takes: usize,
    flushes: bool,
}

impl io::Write for Weak {
    fn write(&mut self, buf: &[u8]) -> io::Result<usize> {
        Ok(buf.len().min(self.takes))
    }

    fn flush(&mut self) -> io::Result<()> {
        if self.flushes {
            Ok(())
        } else {
            Err(io::ErrorKind::Other.into())
        }
    }
}

#[test]
fn a_write_is_passed_on_or_a_fault(rt: HostRuntime) {
    // How many bytes the writer takes and whether its flush works, and the answers to writes of five bytes and of none, and the faults.
    compare_writes(&rt, rt, 2, true, (Ok(2), Ok(0), 0));
    compare_writes(&rt, rt, 9, true, (Ok(5), Ok(0), 0));
    compare_writes(&rt, rt, 0, true, (Err(Failed), Ok(0), 1));
    compare_writes(&rt, rt, 9, false, (Err(Failed), Err(Failed), 2));
}

fn compare_writes(
    rt: &impl Abort,
    host: HostRuntime,
    takes: usize,
    flushes: bool,
    want: (Result<usize, Failed>, Result<usize, Failed>, u64),
) {
    let input: &[u8] = b"";
    let output = Weak { takes, flushes };
    let mut port = StdPort::new(input, output, RealClock::new(host), RealNoise::new(host));
    let (some, none) = (port.write(b"hello"), port.write(b""));
    same(rt, (some, none, port.write_faults()), want, "writes");
}

// A reader that gives a byte, then fails, and so on.
#[derive(Drop)]
struct Shaky {
    fails: bool,
}

impl io::Read for Shaky {
    fn read(&mut self, buf: &mut [u8]) -> io::Result<usize> {
        self.fails = !self.fails;
        if !self.fails {
            return Err(io::ErrorKind::Other.into());
        }
        let Some(first) = buf.first_mut() else {
            return Ok(0);
        };
        *first = b'x';
        Ok(1)
    }
}

#[test]
fn a_failed_read_is_a_fault(rt: HostRuntime) {
    let output = Weak {
        takes: 1,
        flushes: true,
    };
    let input = Shaky { fails: false };
    let mut port = StdPort::new(input, output, RealClock::new(rt), RealNoise::new(rt));
    let mut buf = [0; 2];
    let Ok(1) = port.read(&mut buf) else {
        panic!(&rt; "one byte");
    };
    let Err(Failed) = port.read(&mut buf) else {
        panic!(&rt; "a fault");
    };
    let more = port.read(&mut buf);
    let told = (more, buf, port.read_faults());
    same(&rt, told, (Ok(1), [b'x', 0], 1), "one byte more");
}

#[test]
fn a_port_over_streams(rt: HostRuntime) {
    let mut output = [0; 8];
    pass_over(&rt, rt.alloc(), &mut output);
    same(&rt, output, *b"worldmor", "what is written");
}

fn pass_over(rt: &impl Abort, alloc: Global, output: &mut [u8]) {
    let input: &[u8] = b"hello";
    let clock = RealClock::new(machine_of([5, 6, 7, 8], true));
    let noise = RealNoise::new(machine_of([0; 4], true));
    let mut port = StdPort::new(input, io::Cursor::new(output), clock, noise);
    pass_through(rt, alloc, &mut port);
}

// Compares what a port says that reads `hello` and writes `world` and `more`: the bytes read, both writes, two readings of its clock,
// the first of ten bytes, and its faults.
fn pass_through<P: Port>(rt: &impl Abort, alloc: Global, port: &mut P)
    requires { (P.seen port.old).ended ≡ false }
{
    compare_all(rt, alloc, port, 100, b"hello");
    let writes = (put(port, b"world"), put(port, b"more"));
    same(rt, writes, (Ok(()), Err(Failed)), "writes");
    let [noise, ..] = port.ten();
    same(
        rt,
        (port.now(), port.now(), noise),
        (5, 6, 7),
        "times and noise",
    );
    let faults = (port.read_faults(), port.write_faults());
    same(rt, faults, (0, 1), "faults");
}

// Compares all that a source has, up to a limit.
fn compare_all<S: Source>(rt: &impl Abort, alloc: Global, source: &mut S, limit: usize, want: &[u8])
    requires { (S.seen source.old).ended ≡ false }
{
    let bytes = read_all(alloc, source, limit).expect(rt, "bytes");
    same(rt, bytes.as_slice(), want, "what is read");
}

#[test]
fn a_file_is_opened_at_its_first_read(rt: HostRuntime) {
    let path = temporary_path(&rt, rt, "file_source");
    let mut file = FileSource::new(rt, path.as_str());
    let Err(ReadEnd::Failed) = read_all(rt.alloc(), &mut file, 4) else {
        panic!(&rt; "a file that is missing");
    };
    fs::write(&rt, path.as_str(), b"setup text".as_slice()).expect(&rt, "a new file");
    compare_parts(&rt, rt.alloc(), &mut file);
    fs::remove_file(&rt, path.as_str()).expect(&rt, "a file to be removed");
}

// Compares the first four bytes of a source, the others, and its faults.
fn compare_parts<S: Source>(rt: &impl Abort, alloc: Global, source: &mut S)
    requires { (S.seen source.old).ended ≡ false }
{
    let first = read_all(alloc, source, 4).expect(rt, "the first bytes");
    if first.len() < 4 {
        panic!(rt; "a longer file");
    }
    let rest = read_all(alloc, source, 100).expect(rt, "the others");
    let told = (first.as_slice(), rest.as_slice(), source.read_faults());
    same(
        rt,
        told,
        (b"setu".as_slice(), b"p text".as_slice(), 1),
        "its parts",
    );
}

#[test]
fn a_folder_can_be_opened_and_not_read(rt: HostRuntime) {
    let mut folder = FileSource::new(rt, "/");
    let mut buf = [0; 4];
    let Err(Failed) = folder.read(&mut buf) else {
        panic!(&rt; "a fault");
    };
    let told = (folder.read(&mut buf), folder.read_faults());
    same(&rt, told, (Err(Failed), 2), "another read, and faults");
}
