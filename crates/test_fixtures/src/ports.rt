// Ports in memory, whose clocks stand where runs begin.
ghost use Rattle.std.specs.Prelude.{◌≡◌, [], ◌∷◌, false, IfSome};
ghost use Rattle.arc_io.specs.Memory.{port_seen, source_left, source_failing, sink_bytes, sink_failing, clock_list, noise_list};
ghost use Rattle.test_fixtures.specs.declared.moments.TheConstants.{BEGIN};

use crate::moments::BEGIN;
use arc_io::{ListClock, ListNoise, MemPort, MemSink, MemSource};
use std::alloc::Global;

/// A port with this input. None is want of memory.
pub fn port_of(alloc: Global, input: &[u8]) -> Option<MemPort>
    ensures ended { IfSome result (λ port. (port_seen port).ended ≡ false) }
    ensures source { IfSome result (λ port. (source_left port.source ≡ input.now) × (source_failing port.source ≡ [])) }
    ensures sink { IfSome result (λ port. (sink_bytes port.sink ≡ []) × (sink_failing port.sink ≡ [])) }
    ensures clock { IfSome result (λ port. clock_list port.clock ≡ BEGIN ∷ []) }
    ensures noise { IfSome result (λ port. noise_list port.noise ≡ []) }
{
    failing_port(alloc, input, &[], &[])
}

/// A port with this input, whose reads and writes of these numbers fail. None is want of memory.
pub fn failing_port(alloc: Global, input: &[u8], reads: &[u64], writes: &[u64]) -> Option<MemPort>
    ensures ended { IfSome result (λ port. (port_seen port).ended ≡ false) }
    ensures source { IfSome result (λ port. (source_left port.source ≡ input.now) × (source_failing port.source ≡ reads.now)) }
    ensures sink { IfSome result (λ port. (sink_bytes port.sink ≡ []) × (sink_failing port.sink ≡ writes.now)) }
    ensures clock { IfSome result (λ port. clock_list port.clock ≡ BEGIN ∷ []) }
    ensures noise { IfSome result (λ port. noise_list port.noise ≡ []) }
{
    let Ok(input) = input.to_vec(alloc) else {
        return None;
    };
    let Ok(reads) = reads.to_vec(alloc) else {
        return None;
    };
    let Ok(writes) = writes.to_vec(alloc) else {
        return None;
    };
    let Ok(moments) = [BEGIN].to_vec(alloc) else {
        return None;
    };
    Some(MemPort {
        source: MemSource::new(input, reads),
        sink: MemSink::new(alloc, writes),
        clock: ListClock::new(moments),
        noise: ListNoise::new(Vec::new(alloc)),
    })
}
