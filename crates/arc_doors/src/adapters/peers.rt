// Whom a connection brings, and for how long it may say nothing.
use std::io::ErrorKind;
use std::net::OpenStream;
use std::time::Duration;
use std::{io, time};

/// Whom the connections of a door bring.
#[derive(Clone, Copy, Debug, PartialEq, Eq)]
pub enum Peers {
    /// Panels: the first carriage return, which ends a frame, comes within 60 seconds of the connection's begin, and then never
    /// nothing for 180 seconds.
    Panels,
    /// Operators: the first line comes within an hour, and then never nothing for an hour.
    Operators,
}

impl Peers {
    // What they are called on standard error.
    pub(crate) fn name(self) -> &'static str {
        match self {
            Peers::Panels => "lines",
            Peers::Operators => "desks",
        }
    }

    // The byte that ends a frame or a line.
    fn end(self) -> u8 {
        match self {
            Peers::Panels => b'\r',
            Peers::Operators => b'\n',
        }
    }

    // Within how many seconds of the begin the first frame or line ends.
    fn first(self) -> u64 {
        match self {
            Peers::Panels => 60,
            Peers::Operators => 3_600,
        }
    }

    // For how many seconds nothing may come behind it.
    fn silence(self) -> u64 {
        match self {
            Peers::Panels => 180,
            Peers::Operators => 3_600,
        }
    }
}

/// How long a connection is still waited for. Until its first frame or line has ended, no byte that it sends makes that longer.
#[derive(Drop)]
pub(crate) struct Patience<R: time::Clock> {
    clock: R,
    peers: Peers,
    // By when the first frame or line has to end; none once it has.
    due: Option<Duration>,
}

impl<R: time::Clock + Copy> Patience<R> {
    // That of a connection that begins now.
    pub(crate) fn new(clock: R, peers: Peers) -> io::Result<Self> {
        let due = clock
            .monotonic()?
            .saturating_add(Duration::from_secs(peers.first()));
        Ok(Patience {
            clock,
            peers,
            due: Some(due),
        })
    }
}

impl<R: time::Clock> Patience<R> {
    // Lets the next read of the connection wait as long as it may. The error is also that the time is over.
    pub(crate) fn allow(&self, stream: &impl OpenStream) -> io::Result<()> {
        let Some(due) = self.due else {
            return Ok(());
        };
        let left = due.saturating_sub(self.clock.monotonic()?);
        if left.is_zero() {
            return Err(ErrorKind::TimedOut.into());
        }
        // less than the system counts would be no limit
        stream.set_read_timeout(Some(left.max(Duration::from_millis(1))))
    }

    // Takes note of what was read.
    pub(crate) fn note(&mut self, stream: &impl OpenStream, bytes: &[u8]) -> io::Result<()> {
        if self.due.is_none() || !bytes.contains(&self.peers.end()) {
            return Ok(());
        }
        self.due = None;
        stream.set_read_timeout(Some(Duration::from_secs(self.peers.silence())))
    }
}
