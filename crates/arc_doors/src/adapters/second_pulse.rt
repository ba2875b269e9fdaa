// A pulse of the machine's clock.
use crate::Pulse;
use arc_io::{Clock, RealClock};
use std::sync::Wait;
use std::sync::atomic::{AtomicBool, Ordering};
use std::time::Duration;
use std::{thread, time};

/// A pulse of about a second: each call sleeps for one, ends where it then finds the flag set, and else reads the machine's clock.
/// Where that fails or is out of range, the last moment is given again, at first 0.
#[derive(Drop)]
pub struct SecondPulse<R: time::Clock> {
    rt: R,
    clock: RealClock<R>,
}

impl<R: time::Clock + Copy> SecondPulse<R> {
    /// A pulse over this runtime.
    pub fn new(rt: R) -> Self {
        SecondPulse {
            rt,
            clock: RealClock::new(rt),
        }
    }
}

impl<R: time::Clock> Pulse for SecondPulse<R> {
    fn next<W: Wait>(&mut self, _rt: &W, stop: &AtomicBool) -> Option<u64> {
        thread::sleep(&self.rt, Duration::from_secs(1));
        if stop.load(Ordering::SeqCst) {
            return None;
        }
        Some(self.clock.now())
    }
}
