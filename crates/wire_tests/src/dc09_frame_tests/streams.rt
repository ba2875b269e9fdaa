// A stream that is fed in parts of any size.
use super::{long_piece, word_of};
use crate::rows::same_bytes;
use dc09_frame::{Cut, Cutter};
use std::alloc::{AllocError, Global};
use std::process::Abort;
use std::test::Fail;

const MESSAGE: &[u8] = b"\"ADM-CID\"0001L0#4567[#4567|1131 01 001]";

const BEAT: &[u8] = b"\"NULL\"0000L0#4567[]";

// These parts, one behind the other.
fn joined(alloc: Global, parts: &[&[u8]]) -> Result<Vec<u8>, AllocError> {
    let mut all = Vec::new(alloc);
    for part in parts {
        all.extend_from_slice(part)?;
    }
    Ok(all)
}

// The stream, with the longest piece of a frame, and pieces that are too long for one.
fn stream_of(
    alloc: Global,
    longest: &[u8],
    long: &[u8],
    longer: &[u8],
) -> Result<Vec<u8>, AllocError> {
    joined(
        alloc,
        &[
            // Bytes outside, a piece that a line feed cuts off, and the message.
            b"xyz\r\n1BC\nA2A80027\"ADM-CID\"0001L0#4567[#4567|1131 01 001]\r",
            // A bad check, a bad length, an empty piece, and returns that end none.
            b"\nA2A90027\"ADM-CID\"0001L0#4567[#4567|1131 01 001]\r",
            b"\nA2A80028\"ADM-CID\"0001L0#4567[#4567|1131 01 001]\r\n\r\r\r",
            // A piece that is too long, and one that would be but for the line feed in it.
            b"\n",
            long,
            b"\r\n",
            longer,
            b"\n\n47B70013\"NULL\"0000L0#4567[]\r--",
            // The longest frame, a return in a frame, and a rest without one.
            b"\n",
            longest,
            b"\r\n47B70013\"NULL\"\r0000L0#4567[]\r\n47B70013\"NULL\"0000L0#4567[]",
        ],
    )
}

// The cuts of the stream, as `tell_parts` tells them, with the body of its longest frame.
fn cuts_of(alloc: Global, longest: &[u8]) -> Result<Vec<u8>, AllocError> {
    joined(
        alloc,
        &[
            b"Whole ",
            MESSAGE,
            b"\nBadCheck\nBadLength\nBadLength\nTooLong\nWhole ",
            BEAT,
            b"\nWhole ",
            longest,
            b"\nBadLength\n",
        ],
    )
}

// Feeds the stream in parts of so many bytes, and tells each cut and each whole body, a line each.
fn tell_parts(stream: &[u8], size: usize, told: &mut Vec<u8>) -> Result<(), Fail> {
    let mut cutter = Cutter::new();
    let mut rest = stream;
    for _ in 0..2 * stream.len() + 1 {
        if rest.is_empty() {
            return Ok(());
        }
        let part = &rest[..size.min(rest.len())];
        let (count, cut) = cutter.feed(part);
        rest = &rest[count..];
        if let Some(cut) = cut {
            tell_cut(cut, cutter.body(), told)?;
        }
    }
    Err("the stream does not end")?
}

fn tell_cut(cut: Cut, body: &[u8], told: &mut Vec<u8>) -> Result<(), AllocError> {
    told.extend_from_slice(word_of(cut))?;
    if cut == Cut::Whole {
        told.push(b' ')?;
        told.extend_from_slice(body)?;
    }
    told.extend_from_slice(b"\n")
}

fn compare_parts(rt: &impl Abort, alloc: Global, stream: &[u8], want: &[u8]) -> Result<(), Fail> {
    for size in [1, 2, 3, 7, 4095, 4096, 4097, 100000] {
        let mut told = Vec::new(alloc);
        let end = tell_parts(stream, size, &mut told);
        same_bytes(rt, &told, want, "what a stream is cut into");
        drop(told);
        end?;
    }
    Ok(())
}

#[test]
fn cuts_streams(rt: HostRuntime) -> Result<(), Fail> {
    let alloc = rt.alloc();
    let longest = long_piece(alloc, b"74A50FFF", 4094)?;
    let long = long_piece(alloc, b"59B41000", 4095)?;
    let longer = long_piece(alloc, b"59B41000", 9000)?;
    let body = longest.get(8..).ok_or("eight bytes stand first")?;
    let want = cuts_of(alloc, body)?;
    let stream = stream_of(alloc, &longest, &long, &longer)?;
    compare_parts(&rt, alloc, &stream, &want)
}
