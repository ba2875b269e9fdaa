// One link.
ghost use Rattle.std.specs.Prelude.{◌≡◌, true, false};
ghost use Rattle.arc_serving.specs.Sessions.{ShowsEnd};
ghost use Rattle.line_gate.specs.AtGates.{gate_seen};
ghost use Rattle.line_gate.specs.Passes.{IsPass};
ghost use Rattle.arc_serving.specs.Served.{tcp as tcp_name, IsSingle, ServesLink};
ghost use Rattle.arc_serving.specs.Next.{ServesNext};

use crate::session::{SessionEnd, end_of_line, serve};
use crate::side::Side;
use crate::station_gate::StationGate;
use arc_data::Txt;
use arc_doors::Door;
use arc_io::{Disk, Failed, Port};
use group_gate::{AtGroup, GroupGate, GroupPass};
use line_gate::{AtGate, Gate, GateName, Pass};
use line_session::serve_group;
use std::alloc::Global;
use std::sync::Wait;

/// Takes the next link from the door, serves it as the caller of the pass, and hands it back. How its session ended; none where no
/// link came.
pub(crate) fn serve_next<'a, A: Door, D: Disk, R: Wait, N: GateName>(
    side: Side,
    rt: &R,
    alloc: Global,
    gate: &StationGate<'a, D, N>,
    pass: Pass<N>,
    door: &mut A,
) -> (Pass<N>, Result<Option<SessionEnd>, Failed>)
    ensures pass { IsPass N.terms result.0 }
    ensures next { ServesNext side N.terms pass result.0 (A.seen door.old) (A.seen door.new) result.1 }
{
    match door.next(rt) {
        Err(Failed) => (pass, Err(Failed)),
        Ok(None) => (pass, Ok(None)),
        Ok(Some(link)) => {
            let mut link = link;
            let (pass, end) = serve_link(side, rt, alloc, gate, pass, &mut link);
            door.back(link);
            (pass, Ok(Some(end)))
        }
    }
}

// Serves a link as the caller of the pass.
fn serve_link<'a, P: Port, D: Disk, R: Wait, N: GateName>(
    side: Side,
    rt: &R,
    alloc: Global,
    gate: &StationGate<'a, D, N>,
    pass: Pass<N>,
    link: &mut P,
) -> (Pass<N>, SessionEnd)
    requires not_ended { (P.seen link.old).ended ≡ false }
    ensures pass { IsPass N.terms result.0 }
    ensures served { ServesLink side N.terms pass result.0 (P.seen link.old) (P.seen link.new) result.1 }
    ensures stop { ShowsEnd result.1 (gate_seen N.terms result.0) }
{
    match side {
        Side::Lines => match gate {
            StationGate::Single(single) => serve_at_gate(side, rt, alloc, single.gate, pass, link),
            StationGate::Group(group) => serve_at_group(rt, alloc, group, pass, link),
        },
        Side::Desks => serve_at_gate(side, rt, alloc, gate.gate(), pass, link),
    }
}

// Serves a link as the caller of the pass, each event alone.
fn serve_at_gate<P: Port, D: Disk, R: Wait, N: GateName>(
    side: Side,
    rt: &R,
    alloc: Global,
    gate: &Gate<D, N>,
    pass: Pass<N>,
    link: &mut P,
) -> (Pass<N>, SessionEnd)
    requires single { IsSingle side N.terms.groups }
    requires not_ended { (P.seen link.old).ended ≡ false }
    ensures pass { IsPass N.terms result.0 }
    ensures served { ServesLink side N.terms pass result.0 (P.seen link.old) (P.seen link.new) result.1 }
    ensures stop { ShowsEnd result.1 (gate_seen N.terms result.0) }
{
    let mut hall = AtGate { rt, gate, pass };
    let name = tcp();
    let end = serve(side, &name, alloc, &mut hall, link);
    let pass = hall.leave();
    (pass, end)
}

// Serves a link as a line as the caller of the pass, the events of one piece together.
fn serve_at_group<P: Port, D: Disk, R: Wait, N: GateName>(
    rt: &R,
    alloc: Global,
    gate: &GroupGate<D, N>,
    pass: GroupPass<N>,
    link: &mut P,
) -> (GroupPass<N>, SessionEnd)
    requires named { N.terms.groups ≡ true }
    requires not_ended { (P.seen link.old).ended ≡ false }
    ensures pass { IsPass N.terms result.0 }
    ensures served { ServesLink Side.Lines N.terms pass result.0 (P.seen link.old) (P.seen link.new) result.1 }
    ensures stop { ShowsEnd result.1 (gate_seen N.terms result.0) }
{
    let mut hall = AtGroup { rt, gate, pass };
    let name = tcp();
    let end = end_of_line(serve_group(alloc, &mut hall, link, &name));
    let pass = hall.leave();
    (pass, end)
}

// The name of the line of each link.
fn tcp() -> Txt
    ensures { result ≡ tcp_name }
{
    match Txt::of(b"tcp") {
        Some(name) => name,
        None => unreachable!(),
    }
}
