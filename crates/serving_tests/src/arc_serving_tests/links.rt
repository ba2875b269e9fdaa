// Links and a pulse that wait for one another.
ghost use Rattle.std.specs.Prelude.{◌≡◌, false};
ghost use Rattle.arc_io.specs.Seen.{untold};

use super::BEAT;
use arc_doors::Pulse;
use arc_io::{Clock, Ends, Failed, Noise, Port, Sink, Source};
use std::alloc::Global;
use std::sync::atomic::{AtomicBool, Ordering};
use std::sync::{Arc, Wait};
use std::time::Duration;
use std::{thread, time};
use test_fixtures::moments::BEGIN;

// How many turns of a millisecond a link or a pulse waits.
const TURNS: usize = 10_000;

// A flag that a link, a pulse and a test share.
pub(super) type Flag = Arc<AtomicBool, Global>;

// Waits until the flag is set. Whether it was.
fn waited<C: time::Clock>(host: &C, flag: &AtomicBool) -> bool {
    for _ in 0..TURNS {
        if flag.load(Ordering::SeqCst) {
            return true;
        }
        thread::sleep(host, Duration::from_millis(1));
    }
    false
}

// A link whose first read gives a heartbeat. Its second read waits for a flag, and fails where that is not set. Another flag is set when
// it is written to.
#[derive(Drop)]
pub(super) struct TurnLink<C: time::Clock> {
    host: C,
    until: Flag,
    tells: Flag,
    was_read: bool,
    ended: bool,
    read_faults: u64,
}

impl<C: time::Clock> TurnLink<C> {
    pub(super) fn new(host: C, until: Flag, tells: Flag) -> Self
        ensures { result.ended ≡ false }
    {
        TurnLink {
            host,
            until,
            tells,
            was_read: false,
            ended: false,
            read_faults: 0,
        }
    }
}

impl<C: time::Clock> Ends for TurnLink<C> {
    ghost seen = { λ p. record untold { ended = p.ended; read_faults = p.read_faults } };
}

impl<C: time::Clock> Source for TurnLink<C> {
    fn read(&mut self, buf: &mut [u8]) -> Result<usize, Failed> {
        if !self.was_read && buf.len() >= BEAT.len() {
            self.was_read = true;
            buf[..BEAT.len()].copy_from_slice(BEAT);
            return Ok(BEAT.len());
        }
        if !waited(&self.host, &*self.until) {
            self.read_faults = self.read_faults.saturating_add(1);
            return Err(Failed);
        }
        self.ended = !buf.is_empty();
        Ok(0)
    }

    fn read_faults(&self) -> u64 {
        self.read_faults
    }
}

impl<C: time::Clock> Sink for TurnLink<C> {
    fn write(&mut self, bytes: &[u8]) -> Result<usize, Failed> {
        self.tells.store(true, Ordering::SeqCst);
        Ok(bytes.len())
    }

    fn write_faults(&self) -> u64 {
        0
    }
}

impl<C: time::Clock> Clock for TurnLink<C> {
    fn now(&mut self) -> u64 {
        BEGIN
    }
}

impl<C: time::Clock> Noise for TurnLink<C> {
    fn ten(&mut self) -> [u8; 10] {
        [0; 10]
    }
}

impl<C: time::Clock> Port for TurnLink<C> {}

// A pulse that gives one moment, and sets a flag then. It gives none where the flag of its call was set before that. Then it waits for
// that flag, and notes whether it was set.
#[derive(Drop)]
pub(super) struct TurnPulse<C: time::Clock> {
    host: C,
    tells: Flag,
    is_given: bool,
    is_told: bool,
}

impl<C: time::Clock> TurnPulse<C> {
    pub(super) fn new(host: C, tells: Flag) -> Self {
        TurnPulse {
            host,
            tells,
            is_given: false,
            is_told: false,
        }
    }

    // Whether it was told to end, after its moment.
    pub(super) fn was_told(&self) -> bool {
        self.is_given && self.is_told
    }
}

impl<C: time::Clock> Pulse for TurnPulse<C> {
    fn next<R: Wait>(&mut self, _rt: &R, stop: &AtomicBool) -> Option<u64> {
        if !self.is_given && !stop.load(Ordering::SeqCst) {
            self.is_given = true;
            self.tells.store(true, Ordering::SeqCst);
            return Some(BEGIN + 61);
        }
        self.is_told = waited(&self.host, stop);
        None
    }
}
