// A port in memory.
ghost use Rattle.arc_data.specs.Moments.{IsMoment};

use super::{ListClock, ListNoise, MemSink, MemSource};
use crate::{Clock, Ends, Failed, Noise, Port, Sink, Source};

/// A port in memory: a source, a sink, a clock and a noise together.
pub struct MemPort {
    pub source: MemSource,
    pub sink: MemSink,
    pub clock: ListClock,
    pub noise: ListNoise,
}

// Written out: one call wherever one is dropped, where a derived drop is spelled out at each exit.
impl Drop for MemPort {
    fn drop(self) {
        let MemPort {
            source,
            sink,
            clock,
            noise,
        } = self;
        drop(source);
        drop(sink);
        drop(clock);
        drop(noise);
    }
}

impl Ends for MemPort {
    ghost use Rattle.arc_io.specs.Memory.{port_seen};

    ghost seen = { port_seen };
}

impl Source for MemPort {
    ghost use Rattle.std.specs.Prelude.{◌≡◌};
    ghost use Rattle.std.specs.Io.{ReadsAtMost};
    ghost use Rattle.arc_io.specs.Told.{Reads};
    ghost use Rattle.arc_io.specs.Memory.{port_seen, SourceRead};

    fn read(&mut self, buf: &mut [u8]) -> Result<usize, Failed>
        ensures bound { ReadsAtMost result buf.new }
        ensures told { Reads (port_seen self.old) (port_seen self.new) result buf.new }
        ensures exact { SourceRead self.old.source self.new.source result buf.old buf.new }
        ensures same { self.new ≡ record self.old { source = self.new.source } }
    {
        self.source.read(buf)
    }

    fn read_faults(&self) -> u64 {
        self.source.read_faults()
    }
}

impl Sink for MemPort {
    ghost use Rattle.std.specs.Prelude.{◌≡◌, [], IfOk};
    ghost use Rattle.std.specs.Io.{WritesAtMost};
    ghost use Rattle.arc_io.specs.Told.{Writes};
    ghost use Rattle.arc_io.specs.Memory.{port_seen, SinkWrite};

    fn write(&mut self, bytes: &[u8]) -> Result<usize, Failed>
        ensures bound { WritesAtMost result bytes.now }
        ensures some { IfOk result (λ count. count ≡ 0 → bytes.now ≡ []) }
        ensures told { Writes (port_seen self.old) (port_seen self.new) result bytes.now }
        ensures exact { SinkWrite self.old.sink self.new.sink result bytes.now }
        ensures same { self.new ≡ record self.old { sink = self.new.sink } }
    {
        self.sink.write(bytes)
    }

    fn write_faults(&self) -> u64 {
        self.sink.write_faults()
    }
}

impl Clock for MemPort {
    ghost use Rattle.std.specs.Prelude.{◌≡◌};
    ghost use Rattle.arc_io.specs.Told.{after_reading};
    ghost use Rattle.arc_io.specs.Memory.{port_seen, ClockTick};

    fn now(&mut self) -> u64
        ensures bound { IsMoment result }
        ensures told { port_seen self.new ≡ after_reading result (port_seen self.old) }
        ensures exact { ClockTick self.old.clock self.new.clock result }
        ensures same { self.new ≡ record self.old { clock = self.new.clock } }
    {
        self.clock.now()
    }
}

impl Noise for MemPort {
    ghost use Rattle.std.specs.Prelude.{◌≡◌};
    ghost use Rattle.arc_io.specs.Told.{after_noise};
    ghost use Rattle.arc_io.specs.Memory.{port_seen, NoiseDraw};

    fn ten(&mut self) -> [u8; 10]
        ensures told { port_seen self.new ≡ after_noise result (port_seen self.old) }
        ensures exact { NoiseDraw self.old.noise self.new.noise result }
        ensures same { self.new ≡ record self.old { noise = self.new.noise } }
    {
        self.noise.ten()
    }
}

impl Port for MemPort {}
