// What no clause says: that whole sessions succeed, byte for byte.
mod ends;
mod lines;

use crate::same::same;
use arc_io::MemPort;
use desk_session::DeskEnd;
use std::alloc::Global;
use std::process::Abort;

const SETUP: &[u8] = b"account 1234\noperator ann 1234\noperator bob 5678\n";

// The bytes of a row's lines, between each two of which a bar stands for a line feed.
fn bytes_of(rt: &impl Abort, alloc: Global, row: &str) -> Vec<u8> {
    let mut bytes = Vec::new(alloc);
    for byte in row.bytes() {
        let byte = if byte == b'|' { b'\n' } else { byte };
        bytes.push(byte).expect(rt, "memory");
    }
    bytes
}

// What was written to a port.
fn compare_written(rt: &impl Abort, port: &MemPort, want: &[u8], what: &str) {
    same(rt, port.sink.bytes(), want, what);
}

// An end in a word.
fn word(end: DeskEnd) -> &'static str {
    match end {
        DeskEnd::Quit => "quit",
        DeskEnd::InputEnded => "ended",
        DeskEnd::ReadFault => "read",
        DeskEnd::WriteFault => "write",
        DeskEnd::Spent => "spent",
        DeskEnd::Stopped(_) => "stopped",
    }
}
