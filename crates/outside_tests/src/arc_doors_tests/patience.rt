// How long a connection is waited for, by the second of a machine's clock.
use super::machine::Machine;
use crate::rows::numbers;
use crate::same::same;
use arc_doors::{Peers, TcpPort};
use arc_io::Source;
use std::alloc::Global;
use std::io;
use std::io::{Read, Write};
use std::net::OpenStream;
use std::process::Abort;
use std::sync::atomic::{AtomicU64, Ordering};
use std::time::Duration;

// What a connection sends next, and for how many milliseconds a read of it may wait.
#[derive(Drop)]
struct Line {
    byte: AtomicU64,
    limit: AtomicU64,
}

// A connection that sends that byte.
#[derive(Drop)]
struct Sending<'a> {
    line: &'a Line,
}

impl<'a> Read for Sending<'a> {
    fn read(&mut self, buf: &mut [u8]) -> io::Result<usize> {
        let Some(first) = buf.first_mut() else {
            return Ok(0);
        };
        *first = u8::try_from(self.line.byte.load(Ordering::SeqCst)).unwrap_or(0);
        Ok(1)
    }
}

impl<'a> Write for Sending<'a> {
    fn write(&mut self, buf: &[u8]) -> io::Result<usize> {
        Ok(buf.len())
    }

    fn flush(&mut self) -> io::Result<()> {
        Ok(())
    }
}

impl<'a> OpenStream for Sending<'a> {
    fn set_nodelay(&self, _nodelay: bool) -> io::Result<()> {
        Ok(())
    }

    fn set_read_timeout(&self, dur: Option<Duration>) -> io::Result<()> {
        let millis = u64::try_from(dur.unwrap_or(Duration::MAX).as_millis()).unwrap_or(u64::MAX);
        self.line.limit.store(millis, Ordering::SeqCst);
        Ok(())
    }

    fn set_write_timeout(&self, _dur: Option<Duration>) -> io::Result<()> {
        Ok(())
    }
}

// A second, the byte that is then read, where 13 and 10 are ends of a frame and of a line, and a later second. Whether something is read
// then (1 where it is), and for how many milliseconds that may wait.
const PANEL: &str = "\
0 120 59 1 1000
0 10 59 1 1000
0 120 60 0 60000
1 10 60 0 59000
59 13 60 1 180000
59 13 10000 1 180000";

const OPERATOR: &str = "\
0 13 3599 1 1000
0 13 3600 0 3600000
3599 10 3600 1 3600000
3599 10 100000 1 3600000";

#[test]
fn the_first_frame_is_due_in_time(rt: HostRuntime) {
    compare_rows(&rt, rt.alloc(), Peers::Panels, PANEL);
    compare_rows(&rt, rt.alloc(), Peers::Operators, OPERATOR);
}

fn compare_rows(rt: &impl Abort, alloc: Global, peers: Peers, rows: &str) {
    for row in rows.lines() {
        compare_row(rt, alloc, peers, row);
    }
}

fn compare_row(rt: &impl Abort, alloc: Global, peers: Peers, row: &str) {
    let numbers = numbers(rt, alloc, row);
    let [first, byte, second, is_read, limit] = numbers.as_slice() else {
        panic!(rt; "no row: {row}");
    };
    let told = read_twice(rt, peers, *first, *byte, *second);
    same(rt, told, [*is_read, *limit], row);
}

// What is told of the second read.
fn read_twice(rt: &impl Abort, peers: Peers, first: u64, byte: u64, second: u64) -> [u64; 2] {
    let machine = Machine::new(0, 0);
    machine.running.store(500, Ordering::SeqCst);
    let line = Line {
        byte: AtomicU64::new(byte),
        limit: AtomicU64::new(0),
    };
    let port = TcpPort::new(Sending { line: &line }, &machine, peers);
    let mut port = port.expect(rt, "a port");
    let mut buf = [0; 4];
    machine.running.fetch_add(first, Ordering::SeqCst);
    let Ok(1) = port.read(&mut buf) else {
        panic!(rt; "no byte");
    };
    let second = second.saturating_add(500);
    machine.running.store(second, Ordering::SeqCst);
    let is_read = port.read(&mut buf).is_ok();
    [u64::from(is_read), line.limit.load(Ordering::SeqCst)]
}
