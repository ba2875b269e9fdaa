// What each frame is answered. Checks and lengths are worked out by another program.
use super::{framed, row_of, session};
use crate::same::same;
use line_session::LineEnd;
use std::alloc::Global;
use std::process::Abort;
use test_fixtures::ports::port_of;

// A row is an account, how many entries are recorded at the end, the frames that a panel sends, without their line feeds and
// carriage returns, and those that it is due, with a `;` between these and a `~` between frames. A line without a `;` is a remark.
const ROWS: &str =
    r##"7777;3;DEFF0027"ADM-CID"0001L0#7777[#7777|1131 01 001];4DFC0012"ACK"0001L0#7777[]
# a receiver, no account in the block, and a tail
7777;3;428D0038"ADM-CID"0001R1L2#7777[|1131 01 001]_01:46:40,09-09-2001;910A0014"ACK"0001R1L2#7777[]
# heartbeats are recorded each time
7777;4;48CF0013"NULL"0000L0#7777[]~48CF0013"NULL"0000L0#7777[];88AD0012"ACK"0000L0#7777[]~88AD0012"ACK"0000L0#7777[]
7777;3;C6B70027"NULL"0000L0#7777[]_01:46:40,09-09-2001;88AD0012"ACK"0000L0#7777[]
# another token, another account, and a sealed message of an account without a key
7777;2;DB350012"ABC"0001L0#7777[];73220012"DUH"0001L0#7777[]
7777;2;B2BB0027"ADM-CID"0001L0#9999[#9999|1131 01 001];B7290012"DUH"0001L0#9999[]
7777;2;BACB0036"*ADM-CID"0001L0#7777[69C4E0D86A7B0430D8CDB78070B4C55A;73220012"DUH"0001L0#7777[]
# SIA data, with a second block and with an event that no table lists
77777A;3;98DB003B"SIA-DCS"0001L0#77777A[#77777A|NFA129][S123Main St., 55123];6AA70014"ACK"0001L0#77777A[]
77777A;3;52960028"SIA-DCS"0002L0#77777A[#77777A|Nri1/ZQ7];6EA30014"ACK"0002L0#77777A[]"##;

// Compares what is written and recorded after a row's frames with what it wants.
fn compare(rt: &impl Abort, alloc: Global, account: &str, row: &str) {
    let (count, frames, replies) = row_of(row).expect(rt, "a whole row");
    let count = count.parse().expect(rt, "a count");
    let setup = format!(in alloc; "account {account}\n").expect(rt, "memory");
    let input = framed(rt, alloc, frames);
    let output = framed(rt, alloc, replies);
    let mut port = port_of(alloc, &input).expect(rt, "memory");
    let came = session(rt, alloc, setup.as_bytes(), &mut port);
    same(rt, port.sink.bytes(), output.as_slice(), row);
    same(rt, came, (LineEnd::InputEnded, count), row);
    drop(port);
}

#[test]
fn frames_have_their_replies(rt: HostRuntime) {
    for row in ROWS.lines() {
        if let Some((account, rest)) = row.split_once(';') {
            compare(&rt, rt.alloc(), account, rest);
        }
    }
}
