// A port over a reader and a writer.
ghost use Rattle.std.specs.Prelude.{◌≡◌, [], false, IfOk};
ghost use Rattle.std.specs.Io.{WritesAtMost};
ghost use Rattle.arc_io.specs.Seen.{untold};

use super::{RealClock, RealNoise, RefusalLines};
use crate::{Clock, Ends, Failed, Noise, Port, Refusal, Sink, Source};
use arc_data::Txt;
use std::io::{Read, Write};
use std::random::RandomSource;
use std::{io, time};

/// A port over a reader and a writer of std, as the process's own standard input and output, with the
/// machine's clock and random source. A write is passed on at once: it is flushed before the call ends.
/// An error of the reader, of the writer or of the flush is a fault, and so is a piece of which nothing is taken. What is refused is told
/// on standard error.
#[derive(Drop)]
pub struct StdPort<I: Read, O: Write, R: time::Clock + RandomSource> {
    input: I,
    output: O,
    clock: RealClock<R>,
    noise: RealNoise<R>,
    refusals: RefusalLines,
    ended: bool,
    read_faults: u64,
    write_faults: u64,
}

impl<I: Read, O: Write, R: time::Clock + RandomSource> StdPort<I, O, R> {
    /// A port over these four.
    pub fn new(input: I, output: O, clock: RealClock<R>, noise: RealNoise<R>) -> Self
        ensures not_ended { (⟦<StdPort<I, O, R> as Ends>⟧.seen result).ended ≡ false }
        ensures read_faults { (⟦<StdPort<I, O, R> as Ends>⟧.seen result).read_faults ≡ 0 }
        ensures write_faults { (⟦<StdPort<I, O, R> as Ends>⟧.seen result).write_faults ≡ 0 }
    {
        StdPort {
            input,
            output,
            clock,
            noise,
            refusals: RefusalLines::new(),
            ended: false,
            read_faults: 0,
            write_faults: 0,
        }
    }
}

impl<I: Read, O: Write, R: time::Clock + RandomSource> Ends for StdPort<I, O, R> {
    ghost seen = { λ p. record untold { ended = p.ended; read_faults = p.read_faults; write_faults = p.write_faults } };
}

impl<I: Read, O: Write, R: time::Clock + RandomSource> Source for StdPort<I, O, R> {
    fn read(&mut self, buf: &mut [u8]) -> Result<usize, Failed> {
        match self.input.read(buf) {
            Ok(count) => {
                self.ended = count == 0 && !buf.is_empty();
                Ok(count)
            }
            Err(_) => {
                self.read_faults = self.read_faults.saturating_add(1);
                Err(Failed)
            }
        }
    }

    fn read_faults(&self) -> u64 {
        self.read_faults
    }
}

impl<I: Read, O: Write, R: time::Clock + RandomSource> Sink for StdPort<I, O, R> {
    fn write(&mut self, bytes: &[u8]) -> Result<usize, Failed> {
        match pass_on(&mut self.output, bytes) {
            Ok(count) => Ok(count),
            Err(_) => {
                self.write_faults = self.write_faults.saturating_add(1);
                Err(Failed)
            }
        }
    }

    fn write_faults(&self) -> u64 {
        self.write_faults
    }
}

impl<I: Read, O: Write, R: time::Clock + RandomSource> Clock for StdPort<I, O, R> {
    fn now(&mut self) -> u64 {
        self.clock.now()
    }
}

impl<I: Read, O: Write, R: time::Clock + RandomSource> Noise for StdPort<I, O, R> {
    fn ten(&mut self) -> [u8; 10] {
        self.noise.ten()
    }
}

impl<I: Read, O: Write, R: time::Clock + RandomSource + Eprint> Port for StdPort<I, O, R> {
    fn refused(&mut self, account: &Txt, why: Refusal) {
        self.refusals.tell(&self.clock.rt, account, None, why);
    }
}

// Writes some of the bytes, and flushes. It is an error to take nothing of some.
fn pass_on(output: &mut impl Write, bytes: &[u8]) -> io::Result<usize>
    ensures bound { WritesAtMost result bytes.now }
    ensures some { IfOk result (λ count. count ≡ 0 → bytes.now ≡ []) }
{
    let count = output.write(bytes)?;
    if count == 0 && !bytes.is_empty() {
        return Err(io::ErrorKind::WriteZero.into());
    }
    output.flush()?;
    Ok(count)
}
