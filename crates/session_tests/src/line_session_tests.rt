// What no clause says: that whole sessions succeed, byte for byte.
ghost use Rattle.std.specs.Prelude.{◌≡◌, true, false};
ghost use Rattle.arc_data.specs.Digits.{is_name};

mod ends;
pub(crate) mod panel;
mod pieces;
mod replies;
mod sealed;

use arc_data::Txt;
use arc_io::Port;
use centre_core::RamHall;
use line_session::{LineEnd, serve_line};
use std::alloc::Global;
use std::process::Abort;
use test_fixtures::halls::ram_hall;

const SETUP: &[u8] = b"account 7777\n";

const ALARM: &[u8] = b"\nDEFF0027\"ADM-CID\"0001L0#7777[#7777|1131 01 001]\r";

const ALARM_REPLY: &[u8] = b"\n4DFC0012\"ACK\"0001L0#7777[]\r";

const BEAT: &[u8] = b"\n48CF0013\"NULL\"0000L0#7777[]\r";

const BEAT_REPLY: &[u8] = b"\n88AD0012\"ACK\"0000L0#7777[]\r";

const DUH: &[u8] = b"\n73220012\"DUH\"0001L0#7777[]\r";

// How a session ended, and how many entries its hall has recorded then: two of its beginning, and those of the session.
type Came = (LineEnd, u64);

// A session over a port, under this setup.
fn session<P: Port>(rt: &impl Abort, alloc: Global, setup: &[u8], port: &mut P) -> Came
    requires { (P.seen port.old).ended ≡ false }
{
    let mut hall = ram_hall(alloc, setup).expect(rt, "a hall");
    let end = serve_line(alloc, &mut hall, port, &line_name());
    (end, recorded_of(hall))
}

// The name of each line.
fn line_name() -> Txt
    ensures { is_name result ≡ true }
{
    match Txt::of(b"line") {
        Some(name) => name,
        None => unreachable!(),
    }
}

// How many entries a hall has recorded. Its centre is given to `drop`, since its parts needn't be looked at here.
fn recorded_of(hall: RamHall) -> u64 {
    let centre = hall.into_centre();
    let recorded = centre.recorded();
    drop(centre);
    recorded
}

fn append(rt: &impl Abort, all: &mut Vec<u8>, bytes: &[u8]) {
    all.extend_from_slice(bytes).expect(rt, "memory");
}

// These parts, one behind the other.
fn joined(rt: &impl Abort, alloc: Global, parts: &[&[u8]]) -> Vec<u8> {
    let mut all = Vec::new(alloc);
    for part in parts {
        append(rt, &mut all, part);
    }
    all
}

// The three parts of a row.
fn row_of(row: &str) -> Option<(&str, &str, &str)> {
    let (first, rest) = row.split_once(';')?;
    let (second, third) = rest.split_once(';')?;
    Some((first, second, third))
}

// The frames of a row, as they go over a line.
fn framed(rt: &impl Abort, alloc: Global, frames: &str) -> Vec<u8> {
    let mut all = Vec::new(alloc);
    for frame in frames.split('~') {
        append(rt, &mut all, b"\n");
        append(rt, &mut all, frame.as_bytes());
        append(rt, &mut all, b"\r");
    }
    all
}
