// The ticker.
ghost use Rattle.std.specs.Prelude.{◌≡◌, ◌↔◌, IsTrue};
ghost use Rattle.centre_rules.specs.History.{IsMoment};
ghost use Rattle.line_gate.specs.Passes.{IsPass};
ghost use Rattle.arc_serving.specs.Ticks.{TicksOnce, WorksTicks};

use arc_data::Event;
use arc_doors::Pulse;
use arc_io::Disk;
use centre_core::Stop;
use line_gate::{Gate, GateName, Pass};
use std::alloc::Global;
use std::sync::Wait;
use std::sync::atomic::AtomicBool;

/// What came of a ticker: the stop that ended it, if one did, and how many of its Ticks were refused memory. The number stays at the
/// last value of `u64`.
#[derive(Clone, Copy, Debug, PartialEq, Eq)]
pub struct Ticked {
    pub stop: Option<Stop>,
    pub refused: u64,
}

/// Submits one Tick for each moment of the pulse as the caller of the pass, until the pulse ends or a stop comes that is not want of
/// memory. The flag is handed to the pulse.
pub fn ticker<T: Pulse, D: Disk, R: Wait, N: GateName>(
    rt: &R,
    alloc: Global,
    gate: &Gate<D, N>,
    pass: Pass<N>,
    pulse: &mut T,
    stop: &AtomicBool,
) -> (Pass<N>, Ticked)
    ensures pass { IsPass N.terms result.0 }
    ensures works { WorksTicks N.terms pass result.0 (T.moments pulse.old) (T.moments pulse.new) result.1 }
{
    let mut pass = pass;
    let mut refused: u64 = 0;
    for _ in rt.forever() {
        let Some(moment) = pulse.next(rt, stop) else {
            break;
        };
        if let Some(stop) = tick_at(rt, alloc, gate, &mut pass, moment) {
            if !is_memory(stop) {
                return (
                    pass,
                    Ticked {
                        stop: Some(stop),
                        refused,
                    },
                );
            }
            refused = refused.saturating_add(1);
        }
    }
    (
        pass,
        Ticked {
            stop: None,
            refused,
        },
    )
}

// Submits one Tick.
fn tick_at<D: Disk, R: Wait, N: GateName>(
    rt: &R,
    alloc: Global,
    gate: &Gate<D, N>,
    pass: &mut Pass<N>,
    moment: u64,
) -> Option<Stop>
    requires { IsMoment moment }
    ensures pass { IsPass N.terms pass.new }
    ensures ticks { TicksOnce N.terms pass.old pass.new moment result }
{
    gate.submit(rt, alloc, pass, Event::Tick, moment).err()
}

// Whether it is want of memory.
fn is_memory(stop: Stop) -> bool
    ensures { IsTrue result ↔ (stop ≡ Stop.Memory) }
{
    matches!(stop, Stop::Memory)
}
