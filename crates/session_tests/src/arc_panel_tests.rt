// Whole inputs of a panel over a port in memory, byte for byte: the check of each frame is another program's.
use crate::same::same;
use arc_data::{Token, Txt};
use arc_panel::{PanelEnd, PanelLine, is_panel_account, run_panel};
use std::alloc::Global;
use std::process::Abort;
use test_fixtures::ports::failing_port;

// How the input ends, played over a panel of the account 1234, and what it writes.
fn plays(
    rt: &impl Abort,
    alloc: Global,
    input: &[u8],
    failing: (&[u64], &[u64]),
    want: (PanelEnd, &[u8]),
) {
    let port = failing_port(alloc, input, failing.0, failing.1);
    let mut port = port.expect(rt, "memory");
    let account = Txt::of(b"1234").expect(rt, "an account");
    let end = if is_panel_account(account.bytes()) {
        run_panel(alloc, account, &mut port)
    } else {
        PanelEnd::Memory
    };
    same(rt, end, want.0, "how the input ended");
    same(rt, port.sink.bytes(), want.1, "what was written");
    drop(port);
}

#[test]
fn a_panel_says_what_it_does(rt: HostRuntime) {
    let alloc = rt.alloc();
    let input =
        b"T 1000000000\nE ADM-CID 1131 01 001\nT 1000000001\nT 1000000020\nT 1000000021\nR \"ACK\"0001L0#1234[]\nT 1000000041\n";
    let output =
        b"T -\nE 1\nT 2EE70027\"ADM-CID\"0001L0#1234[#1234|1131 01 001]\nT -\nT 2EE70027\"ADM-CID\"0001L0#1234[#1234|1131 01 001]\nR acked 1\nT -\n";
    plays(&rt, alloc, input, (&[], &[]), (PanelEnd::Done, output));
    let rest = b"E SIA-DCS \r\nR \nE ADM-CID 1131 01 001";
    let said = b"E bad\nR other\nE 1\n";
    plays(&rt, alloc, rest, (&[], &[]), (PanelEnd::Done, said));
    plays(&rt, alloc, b"", (&[], &[]), (PanelEnd::Done, b""));
}

#[test]
fn a_line_or_a_fault_ends_it(rt: HostRuntime) {
    let alloc = rt.alloc();
    let second = PanelEnd::BadLine { line: 2 };
    plays(&rt, alloc, b"T 5\nT 4\n", (&[], &[]), (second, b"T -\n"));
    plays(&rt, alloc, b"T 5\n\nT 6\n", (&[], &[]), (second, b"T -\n"));
    let first = PanelEnd::BadLine { line: 1 };
    plays(&rt, alloc, b"# T 5\n", (&[], &[]), (first, b""));
    let read = PanelEnd::ReadFault;
    plays(&rt, alloc, b"T 5\n", (&[2], &[]), (read, b"T -\n"));
    let write = PanelEnd::WriteFault;
    plays(&rt, alloc, b"T 5\nR x\n", (&[], &[2]), (write, b"T -\n"));
}

// Whether a line says this.
fn says(rt: &impl Abort, line: &[u8], want: Option<PanelLine>) {
    same(rt, PanelLine::read(line), want, "a line");
}

#[test]
fn lines_are_read(rt: HostRuntime) {
    says(&rt, b"T 0", Some(PanelLine::Step { now: 0 }));
    let now = 253_402_300_799;
    says(&rt, b"T 253402300799", Some(PanelLine::Step { now }));
    says(&rt, b"T 253402300800", None);
    says(&rt, b"T 01", None);
    says(&rt, b"T ", None);
    let content = b"x y".as_slice();
    let token = Token::SiaDcs;
    let queued = PanelLine::Queue { token, content };
    says(&rt, b"E SIA-DCS x y", Some(queued));
    let content = b"".as_slice();
    let token = Token::AdmCid;
    let queued = PanelLine::Queue { token, content };
    says(&rt, b"E ADM-CID ", Some(queued));
    says(&rt, b"E ADM-CID", None);
    says(&rt, b"E NULL x", None);
    says(&rt, b"R ", Some(PanelLine::Hear { body: b"" }));
    says(&rt, b"R", None);
    says(&rt, b"", None);
}
