// The check, cuts, headers and replies, with bytes worked out by hand or by other programs.
mod streams;

use crate::rows::{Tells, compare, holds, same, same_bytes};
use dc09_frame::{Cut, Echo, FrameBuf, Header, check, write_echo, write_frame, write_nak};
use std::alloc::{AllocError, Global};
use std::test::Fail;

#[test]
fn checks(rt: HostRuntime) {
    same(&rt, &check(b"123456789"), &0xBB3D, "digits");
    same(&rt, &check(b"\x01"), &0xC0C1, "01");
    same(&rt, &check(b"\x80"), &0xA001, "80");
    same(&rt, &check(b""), &0, "no bytes");
}

// What pieces are cut as.
const PIECES: &str = r##"Whole;A2A80027"ADM-CID"0001L0#4567[#4567|1131 01 001]
Whole;a2a80027"ADM-CID"0001L0#4567[#4567|1131 01 001]
Whole;42840012"ACK"0001L0#4567[]
Whole;47B70013"NULL"0000L0#4567[]
Whole;87D50012"ACK"0000L0#4567[]
Whole;dC4a001E"ACK"0007RaBcDeFL01234f#12ab[]
Whole;DC4A001e"ACK"0007RaBcDeFL01234f#12ab[]
Whole;19800001"
BadCheck;A2A90027"ADM-CID"0001L0#4567[#4567|1131 01 001]
BadCheck;A2G80027"ADM-CID"0001L0#4567[#4567|1131 01 001]
BadCheck;+2A80027"ADM-CID"0001L0#4567[#4567|1131 01 001]
BadCheck;42840012"ACK"0001L0#4568[]
BadLength;A2A80028"ADM-CID"0001L0#4567[#4567|1131 01 001]
BadLength;A2A80026"ADM-CID"0001L0#4567[#4567|1131 01 001]
BadLength;A2A81027"ADM-CID"0001L0#4567[#4567|1131 01 001]
BadLength;A2A80G27"ADM-CID"0001L0#4567[#4567|1131 01 001]
BadLength;0000002x
BadLength;00000000
BadLength;BB3D0009123456789
BadLength;FFFFFFFFF
BadLength;"##;

// Tells what a piece is cut as.
#[derive(Drop)]
struct Pieces {}

impl Tells for Pieces {
    fn tell(&mut self, _alloc: Global, input: &str, told: &mut Vec<u8>) -> Result<(), Fail> {
        Ok(told.extend_from_slice(word_of(Cut::of(input.as_bytes())))?)
    }
}

fn word_of(cut: Cut) -> &'static [u8] {
    match cut {
        Cut::Whole => b"Whole",
        Cut::BadCheck => b"BadCheck",
        Cut::BadLength => b"BadLength",
        Cut::TooLong => b"TooLong",
    }
}

// What pieces are cut as that have these eight bytes, a double quote and so many letters.
const LONG_PIECES: &str = "\
Whole;74A50FFF 4094
BadCheck;74A60FFF 4094
BadLength;74A50FFE 4094
TooLong;59B41000 4095
TooLong;59B40000 4095";

// Tells what a long piece is cut as.
#[derive(Drop)]
struct LongPieces {}

impl Tells for LongPieces {
    fn tell(&mut self, alloc: Global, input: &str, told: &mut Vec<u8>) -> Result<(), Fail> {
        let (head, letters) = input.split_once(' ').ok_or("no row")?;
        let piece = long_piece(alloc, head.as_bytes(), letters.parse()?)?;
        let cut = Cut::of(&piece);
        drop(piece);
        Ok(told.extend_from_slice(word_of(cut))?)
    }
}

// A double quote and letters `x`, behind these eight bytes.
fn long_piece(alloc: Global, head: &[u8], letters: usize) -> Result<Vec<u8>, AllocError> {
    let mut piece = head.to_vec(alloc)?;
    piece.push(b'"')?;
    for _ in 0..letters {
        piece.push(b'x')?;
    }
    Ok(piece)
}

#[test]
fn cuts_pieces(rt: HostRuntime) -> Result<(), Fail> {
    compare(&rt, rt.alloc(), PIECES, &mut Pieces {})?;
    compare(&rt, rt.alloc(), LONG_PIECES, &mut LongPieces {})
}

// What bodies begin with: whether it is sealed, how many bytes it has, its token, sequence, `R` digits, `L` digits and account; a `-` stands
// for no header.
const HEADERS: &str = r##"false 21/ADM-CID/0001//0/4567;"ADM-CID"0001L0#4567[#4567|1131 01 001]
true 26/SIA-DCS/9999/1/2/45678A;"*SIA-DCS"9999R1L2#45678A[69C4
false 18/NULL/0000//0/4567;"NULL"0000L0#4567[]_01:46:40,09-09-2001
false 14/A/0000//0/123;"A"0000L0#123[
false 29/ABCDEFGHIJ-01239/0000//0/123;"ABCDEFGHIJ-01239"0000L0#123[]
false 16/Z/0000/a/0/123;"Z"0000RaL0#123[]
false 21/Z/0000/09afAF/0/123;"Z"0000R09afAFL0#123[]
false 19/Z/0000//09afAF/123;"Z"0000L09afAF#123[]
false 27/Z/0000//0/0123456789abcDEF;"Z"0000L0#0123456789abcDEF[]
-;
-;"
-;ADM-CID"0001L0#1234[]
-;""0001L0#1234[]
-;"*"0001L0#1234[]
-;"**NULL"0001L0#1234[]
-;"ABCDEFGHIJ-012345"0001L0#1234[]
-;"null"0001L0#1234[]
-;"NULL 1"0001L0#1234[]
-;"NULL0001L0#1234[]
-;"NULL"001L0#1234[]
-;"NULL"00001L0#1234[]
-;"NULL"000AL0#1234[]
-;"NULL"0001RL0#1234[]
-;"NULL"0001R1234567L0#1234[]
-;"NULL"0001R1R2L0#1234[]
-;"NULL"0001#1234[]
-;"NULL"0001L#1234[]
-;"NULL"0001L1234567#1234[]
-;"NULL"0001L0R1#1234[]
-;"NULL"0001l0#1234[]
-;"NULL"0001L01234[]
-;"NULL"0001L0#12[]
-;"NULL"0001L0#01234567890123456[]
-;"NULL"0001L0#123G[]
-;"NULL"0001L0#1234
-;"NULL"0001L0#1234]"##;

// Tells the header of a body.
#[derive(Drop)]
struct Headers {}

impl Tells for Headers {
    fn tell(&mut self, alloc: Global, input: &str, told: &mut Vec<u8>) -> Result<(), Fail> {
        match Header::read(input.as_bytes()) {
            Some((header, length)) => {
                let begin = format!(in alloc; "{} {length}", header.sealed)?;
                told.extend_from_slice(begin.as_bytes())?;
                Ok(add_fields(told, &header)?)
            }
            None => Ok(told.push(b'-')?),
        }
    }
}

fn add_fields(told: &mut Vec<u8>, header: &Header) -> Result<(), AllocError> {
    add(told, header.token.bytes())?;
    add(told, header.seq.as_slice())?;
    match &header.receiver {
        Some(digits) => add(told, digits.bytes())?,
        None => add(told, b"")?,
    }
    add(told, header.line.bytes())?;
    add(told, header.account.bytes())
}

fn add(told: &mut Vec<u8>, field: &[u8]) -> Result<(), AllocError> {
    told.push(b'/')?;
    told.extend_from_slice(field)
}

#[test]
fn reads_headers(rt: HostRuntime) -> Result<(), Fail> {
    compare(&rt, rt.alloc(), HEADERS, &mut Headers {})
}

// The piece of the frame that the buffer holds.
fn piece_in(out: &FrameBuf) -> &[u8] {
    match out.bytes() {
        [b'\n', piece @ .., b'\r'] => piece,
        _ => b"no frame",
    }
}

#[test]
fn writes_frames(rt: HostRuntime) {
    let mut out = FrameBuf::new();
    holds(&rt, out.bytes().is_empty(), "a new buffer is empty");
    write_frame(b"\"ADM-CID\"0001L0#4567[#4567|1131 01 001]", &mut out);
    let piece = b"A2A80027\"ADM-CID\"0001L0#4567[#4567|1131 01 001]";
    same_bytes(&rt, piece_in(&out), piece, "a frame");
    write_frame(b"\"", &mut out);
    same_bytes(&rt, piece_in(&out), b"19800001\"", "a frame of one byte");
    out.clear();
    holds(&rt, out.bytes().is_empty(), "a cleared buffer is empty");
    write_nak(b"_01:47:20,09-09-2001", &mut out);
    let frame = b"\n32D10025\"NAK\"0000R0L0A0[]_01:47:20,09-09-2001\r";
    same_bytes(&rt, out.bytes(), frame, "a refusal");
}

// Pieces of replies, and the word and the body whose header each echoes.
const ECHOES: &str = r##"42840012"ACK"0001L0#4567[];ACK "ADM-CID"0001L0#4567[
7C5A0012"DUH"0001L0#4567[];DUH "ADM-CID"0001L0#4567[
B7290012"DUH"0001L0#9999[];DUH "*ADM-CID"0001L0#9999[
87D50012"ACK"0000L0#4567[];ACK "NULL"0000L0#4567[
9E720014"ACK"0001R1L2#4567[];ACK "ADM-CID"0001R1L2#4567[
7EC20014"ACK"0002L0#45678A[];ACK "SIA-DCS"0002L0#45678A[
DC4A001E"ACK"0007RaBcDeFL01234f#12ab[];ACK "X"0007RaBcDeFL01234f#12ab[
5DAA001E"DUH"0007RaBcDeFL01234f#12ab[];DUH "X"0007RaBcDeFL01234f#12ab[
A415002A"ACK"9999R123456L123456#0123456789abcdef[];ACK "X"9999R123456L123456#0123456789abcdef["##;

// Tells the echo of a header, written to the buffer of those before it.
#[derive(Drop)]
struct Echoes {
    out: FrameBuf,
}

impl Tells for Echoes {
    fn tell(&mut self, _alloc: Global, input: &str, told: &mut Vec<u8>) -> Result<(), Fail> {
        let (word, body) = input.split_once(' ').ok_or("no row")?;
        let (header, _) = Header::read(body.as_bytes()).ok_or("no header")?;
        write_echo(echo_of(word), &header, &mut self.out);
        Ok(told.extend_from_slice(piece_in(&self.out))?)
    }
}

fn echo_of(word: &str) -> Echo {
    if word == "DUH" { Echo::Duh } else { Echo::Ack }
}

#[test]
fn writes_echoes(rt: HostRuntime) -> Result<(), Fail> {
    let out = FrameBuf::new();
    compare(&rt, rt.alloc(), ECHOES, &mut Echoes { out })
}
