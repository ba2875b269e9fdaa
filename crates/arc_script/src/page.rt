// The port that a script's lines and desks are served on: it keeps what is written to it, its clock stands still, and its noise is zero.
ghost use Rattle.std.specs.Prelude.{◌≡◌, ◌≤◌, ◌-◌, ◌^◌, [], min, length, IfOk};
ghost use Rattle.arc_data.specs.Moments.{IsMoment};
ghost use Rattle.arc_io.specs.Memory.{clock_calls, clock_list, noise_list, port_seen, sink_bytes};
ghost use Rattle.arc_script.specs.Pages.{blank};

use arc_data::Memory;
use arc_io::{
    Clock, Ends, Failed, ListClock, ListNoise, MemPort, MemSink, MemSource, Noise, Port, Sink,
    Source,
};
use std::alloc::Global;

/// What one line of a script writes. A write fails for want of memory alone. There is nothing to be read.
pub(crate) struct Page {
    port: MemPort,
    // How many readings were taken behind the first, which is taken at once: so all that the page tells of its clock is that moment.
    taken: u64,
    ghost still: { length (clock_list port.clock) ≡ 1 },
    ghost silent: { noise_list port.noise ≡ [] },
    ghost begun: { 1 ≤ clock_calls port.clock },
    ghost counted: { taken ≡ min (clock_calls port.clock - 1) (2 ^ 64 - 1) },
}

// Written out: one call wherever one is dropped, where a derived drop is spelled out at each exit.
impl Drop for Page {
    fn drop(self) {
        let Page { port, taken: _ } = self;
        drop(port);
    }
}

impl Page {
    /// Nothing is written, and the clock stands at this moment.
    pub(crate) fn new(alloc: Global, moment: u64) -> Result<Page, Memory>
        requires { IsMoment moment }
        ensures blank { IfOk result (λ page. port_seen page.port ≡ blank moment) }
    {
        let mut readings = Vec::new(alloc);
        let Ok(()) = readings.push(moment) else {
            return Err(Memory);
        };
        let mut port = MemPort {
            source: MemSource::new(Vec::new(alloc), Vec::new(alloc)),
            sink: MemSink::new(alloc, Vec::new(alloc)),
            clock: ListClock::new(readings),
            noise: ListNoise::new(Vec::new(alloc)),
        };
        let _ = port.now();
        Ok(Page { port, taken: 0 })
    }

    /// What was written.
    pub(crate) fn text(&self) -> &[u8]
        ensures { result.now ≡ sink_bytes self.now.port.sink }
    {
        self.port.sink.bytes()
    }

    /// How many readings of the clock were taken behind the first.
    pub(crate) fn taken(&self) -> u64
        ensures { result ≡ min (clock_calls self.now.port.clock - 1) (2 ^ 64 - 1) }
    {
        self.taken
    }
}

impl Ends for Page {
    ghost seen = { λ p. port_seen p.port };
}

impl Source for Page {
    fn read(&mut self, buf: &mut [u8]) -> Result<usize, Failed> {
        self.port.read(buf)
    }

    fn read_faults(&self) -> u64 {
        self.port.read_faults()
    }
}

impl Sink for Page {
    fn write(&mut self, bytes: &[u8]) -> Result<usize, Failed> {
        self.port.write(bytes)
    }

    fn write_faults(&self) -> u64 {
        self.port.write_faults()
    }
}

impl Clock for Page {
    fn now(&mut self) -> u64 {
        self.taken = self.taken.saturating_add(1);
        self.port.now()
    }
}

impl Noise for Page {
    fn ten(&mut self) -> [u8; 10] {
        self.port.ten()
    }
}

impl Port for Page {}
