// A machine of the tests' own: its clock, its random source, its network and its standard error.
use std::fmt::Display;
use std::io::{ErrorKind, Read, Write};
use std::net::{Net, OpenListener, OpenStream, SocketAddr};
use std::os::fd::{AsRawFd, RawFd};
use std::random::RandomSource;
use std::sync::atomic::{AtomicU64, Ordering};
use std::time::Duration;
use std::{io, time};

// Its clock gives 5, 6, 7 and then fails. It counts for how many milliseconds it was asked to sleep, and what was said on standard error.
#[derive(Drop)]
pub struct Machine {
    pub binds: bool,
    // How many connections fail before one comes.
    pub failures: u64,
    // How many calls of a connection are broken off before one ends.
    pub interruptions: u64,
    pub readings: AtomicU64,
    // For how many seconds it has run.
    pub running: AtomicU64,
    pub slept: AtomicU64,
    pub said: AtomicU64,
}

impl Machine {
    pub fn new(failures: u64, interruptions: u64) -> Machine {
        Machine {
            binds: true,
            failures,
            interruptions,
            readings: AtomicU64::new(5),
            running: AtomicU64::new(100),
            slept: AtomicU64::new(0),
            said: AtomicU64::new(0),
        }
    }
}

impl time::Clock for Machine {
    fn monotonic(&self) -> io::Result<Duration> {
        Ok(Duration::from_secs(self.running.load(Ordering::SeqCst)))
    }

    fn since_1970(&self) -> io::Result<Duration> {
        match self.readings.fetch_add(1, Ordering::SeqCst) {
            reading @ 5..=7 => Ok(Duration::from_secs(reading)),
            _ => Err(ErrorKind::Other.into()),
        }
    }

    fn sleep(&self, duration: Duration) {
        let millis = u64::try_from(duration.as_millis()).unwrap_or(0);
        self.slept.fetch_add(millis, Ordering::SeqCst);
    }
}

impl RandomSource for Machine {
    fn fill_bytes(&self, buf: &mut [u8]) -> io::Result<()> {
        buf.fill(7);
        Ok(())
    }
}

impl Eprint for Machine {
    fn eprint<D: Display + Drop>(&self, _value: D) -> io::Result<()> {
        Ok(())
    }

    fn eprintln<D: Display + Drop>(&self, _value: D) -> io::Result<()> {
        self.said.fetch_add(1, Ordering::SeqCst);
        Ok(())
    }
}

impl Net for Machine {
    type Stream = Peer;

    type Listener = Weak;

    fn bind(&self, addr: SocketAddr) -> io::Result<Weak> {
        if self.binds && addr == SocketAddr::from(([127, 0, 0, 1], 9_000)) {
            Ok(Weak {
                failures: AtomicU64::new(self.failures),
                interruptions: self.interruptions,
            })
        } else {
            Err(ErrorKind::AddrInUse.into())
        }
    }

    fn connect(&self, _addr: SocketAddr) -> io::Result<Peer> {
        Ok(Peer {
            interruptions: self.interruptions,
        })
    }
}

// What listens. It fails some times, and then gives connections.
#[derive(Drop)]
pub struct Weak {
    failures: AtomicU64,
    interruptions: u64,
}

impl OpenListener for Weak {
    type Stream = Peer;

    fn accept(&self) -> io::Result<(Peer, SocketAddr)> {
        let left = self.failures.load(Ordering::SeqCst);
        if left > 0 {
            self.failures.store(left - 1, Ordering::SeqCst);
            return Err(ErrorKind::ConnectionAborted.into());
        }
        let peer = Peer {
            interruptions: self.interruptions,
        };
        Ok((peer, SocketAddr::from(([127, 0, 0, 1], 9_001))))
    }
}

impl AsRawFd for Weak {
    fn as_raw_fd(&self) -> RawFd {
        -1
    }
}

// A connection, of which each call is broken off some times. It sends `x`, takes two bytes of a piece, and knows the limits that it
// is to have in the machine's second of its begin.
#[derive(Drop)]
pub struct Peer {
    interruptions: u64,
}

impl Peer {
    fn is_broken_off(&mut self) -> bool {
        let broken = self.interruptions > 0;
        self.interruptions = self.interruptions.saturating_sub(1);
        broken
    }
}

impl Read for Peer {
    fn read(&mut self, buf: &mut [u8]) -> io::Result<usize> {
        if self.is_broken_off() {
            return Err(ErrorKind::Interrupted.into());
        }
        let Some(first) = buf.first_mut() else {
            return Ok(0);
        };
        *first = b'x';
        Ok(1)
    }
}

impl Write for Peer {
    fn write(&mut self, buf: &[u8]) -> io::Result<usize> {
        if self.is_broken_off() {
            return Err(ErrorKind::Interrupted.into());
        }
        Ok(buf.len().min(2))
    }

    fn flush(&mut self) -> io::Result<()> {
        Ok(())
    }
}

impl OpenStream for Peer {
    fn set_nodelay(&self, nodelay: bool) -> io::Result<()> {
        wanted(nodelay)
    }

    fn set_read_timeout(&self, dur: Option<Duration>) -> io::Result<()> {
        wanted(dur == Some(Duration::from_secs(60)))
    }

    fn set_write_timeout(&self, dur: Option<Duration>) -> io::Result<()> {
        wanted(dur == Some(Duration::from_secs(60)))
    }
}

fn wanted(is_so: bool) -> io::Result<()> {
    if is_so {
        Ok(())
    } else {
        Err(ErrorKind::InvalidInput.into())
    }
}

impl AsRawFd for Peer {
    fn as_raw_fd(&self) -> RawFd {
        -1
    }
}
