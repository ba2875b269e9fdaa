// Streams cut into lines.
ghost use Rattle.std.specs.Prelude.{◌≤◌};

use crate::checks::{cut, holds, same_bytes};
use arc_text::{LineCut, LineCutter};
use std::alloc::Global;
use std::process::Abort;

// Feeds the stream in parts of so many bytes and ends it. Puts each line and a comma behind it last, and `!` for a line that is too
// long.
fn tell_lines(rt: &impl Abort, told: &mut Vec<u8>, limit: usize, stream: &[u8], size: usize)
    requires { limit ≤ 16384 }
{
    let mut cutter = LineCutter::new(limit);
    let mut rest = stream;
    for _ in 0..2 * stream.len() + 1 {
        if rest.is_empty() {
            break;
        }
        let (count, cut) = cutter.feed(&rest[..size.min(rest.len())]);
        rest = &rest[count..];
        tell(rt, told, cut, cutter.line());
    }
    holds(rt, rest.is_empty(), "no rest");
    let cut = cutter.finish();
    tell(rt, told, cut, cutter.line());
    holds(rt, cutter.finish().is_none(), "no line behind the end");
}

fn tell(rt: &impl Abort, told: &mut Vec<u8>, cut: Option<LineCut>, line: &[u8]) {
    match cut {
        None => {}
        Some(LineCut::Whole) => put(rt, told, line),
        Some(LineCut::TooLong) => put(rt, told, b"!"),
    }
}

// A line and a comma.
fn put(rt: &impl Abort, told: &mut Vec<u8>, line: &[u8]) {
    told.extend_from_slice(line).expect(rt, "memory");
    told.push(b',').expect(rt, "memory");
}

// The stream in parts of so many bytes has these lines.
fn compare_lines(
    rt: &impl Abort,
    alloc: Global,
    limit: usize,
    stream: &[u8],
    size: usize,
    want: &[u8],
)
    requires { limit ≤ 16384 }
{
    let mut told = Vec::new(alloc);
    tell_lines(rt, &mut told, limit, stream, size);
    same_bytes(rt, &told, want, "the lines");
}

// The bytes, with a carriage return for each `$` and a line feed for each `/`.
fn bytes_of(rt: &impl Abort, alloc: Global, text: &str) -> Vec<u8> {
    let mut bytes = Vec::new(alloc);
    for byte in text.as_bytes() {
        let byte = match *byte {
            b'$' => b'\r',
            b'/' => b'\n',
            other => other,
        };
        bytes.push(byte).expect(rt, "memory");
    }
    bytes
}

// Streams, and their lines of at most four bytes.
const STREAMS: &str = "\
=
/=,
a=a,
a$=a$,
$=$,
a$/=a,
a$$/=a$,
//$/ab/cd=,,,ab,cd,
abcd$/abcd/=abcd,abcd,
abcd=abcd,
abcd$=!,
abcd$$/ab/=!,ab,
abcd$e/ab$/=!,ab,
abcde$/abcdefgh/abc$$/=!,!,abc$,
abcde=!,";

#[test]
fn cuts_short_lines(rt: HostRuntime) {
    for row in STREAMS.lines() {
        compare_stream(&rt, rt.alloc(), row);
    }
    compare_lines(&rt, rt.alloc(), 0, b"\n\r\na\n\r", 1, b",,!,!,");
}

fn compare_stream(rt: &impl Abort, alloc: Global, row: &str) {
    let (stream, want) = cut(rt, row, '=');
    let stream = bytes_of(rt, alloc, stream);
    let want = bytes_of(rt, alloc, want);
    for size in [1, 2, 3, 99] {
        compare_lines(rt, alloc, 4, &stream, size, &want);
    }
}

// Puts so many letters last.
fn put_letters(rt: &impl Abort, stream: &mut Vec<u8>, len: usize) {
    for _ in 0..len {
        stream.push(b'x').expect(rt, "memory");
    }
}

// So many letters with a carriage return and a line feed behind them, with a line feed alone, and without.
fn three_lines(rt: &impl Abort, alloc: Global, len: usize) -> Vec<u8> {
    let mut stream = Vec::new(alloc);
    put_letters(rt, &mut stream, len);
    stream.extend_from_slice(b"\r\n").expect(rt, "memory");
    put_letters(rt, &mut stream, len);
    stream.push(b'\n').expect(rt, "memory");
    put_letters(rt, &mut stream, len);
    stream
}

// Three lines of so many letters, which are within the limit or not.
fn cuts_long(rt: &impl Abort, alloc: Global, limit: usize, len: usize)
    requires { limit ≤ 16384 }
{
    let mut line = Vec::new(alloc);
    put_letters(rt, &mut line, len);
    let mut want = Vec::new(alloc);
    for _ in 0..3 {
        put(rt, &mut want, if len <= limit { &line } else { b"!" });
    }
    let stream = three_lines(rt, alloc, len);
    for size in [1, 1000, 65536] {
        compare_lines(rt, alloc, limit, &stream, size, &want);
    }
}

#[test]
fn cuts_long_lines(rt: HostRuntime) {
    cuts_long(&rt, rt.alloc(), 1024, 1023);
    cuts_long(&rt, rt.alloc(), 1024, 1024);
    cuts_long(&rt, rt.alloc(), 1024, 1025);
    cuts_long(&rt, rt.alloc(), 16384, 16383);
    cuts_long(&rt, rt.alloc(), 16384, 16384);
    cuts_long(&rt, rt.alloc(), 16384, 16385);
}
