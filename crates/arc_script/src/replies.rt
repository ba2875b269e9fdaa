// What a line of a script writes for its output.
ghost use Rattle.std.specs.Prelude.{◌≡◌, ◌<◌, ◌≤◌, ◌∷◌, [], ◌++◌, Ok, Err, IfOk, OnOk, OnErr, decimal, length, take};
ghost use Rattle.std.specs.Io.KnownBytes.{append_known};
ghost use Rattle.arc_io.specs.Told.{OnlyWrites};
ghost use Rattle.arc_script.specs.Pages.{head_of, replied, spaced, counted_line};

use arc_io::{Failed, Sink, put};
use centre_core::Stop;
use itoa::Buffer;

/// A write to a page fails for want of memory alone.
pub(crate) fn said(written: Result<(), Failed>) -> Result<(), Stop>
    ensures done { result ≡ Ok tt → written ≡ Ok tt }
    ensures stop { OnErr result (result ≡ Err Stop.Memory) }
{
    match written {
        Ok(()) => Ok(()),
        Err(Failed) => Err(Stop::Memory),
    }
}

/// Puts a letter, a space and a number.
#[tactic(auto, using(arc_io::proofs::KnownMore::known_both))]
pub(crate) fn put_head<K: Sink>(out: &mut K, letter: u8, number: u64) -> Result<(), Failed>
    ensures all { OnOk result ((K.seen out.new).written ≡ append_known (K.seen out.old).written (head_of letter number)) }
    ensures only { OnlyWrites (K.seen out.old) (K.seen out.new) }
{
    put(out, &[letter, b' '])?;
    put_number(out, number)
}

/// Puts a number in decimal.
pub(crate) fn put_number<K: Sink>(out: &mut K, number: u64) -> Result<(), Failed>
    ensures all { OnOk result ((K.seen out.new).written ≡ append_known (K.seen out.old).written (decimal number)) }
    ensures only { OnlyWrites (K.seen out.old) (K.seen out.new) }
{
    let mut buffer = Buffer::new();
    put(out, buffer.format(number).as_bytes())
}

/// Puts the output of a line that was fed: a space and a reply for each of these frames, without its line feed and carriage return; or
/// a space and `-` where there are none.
#[tactic(auto, using(arc_io::proofs::KnownMore::known_both))]
pub(crate) fn put_replies<K: Sink>(
    out: &mut K,
    letter: u8,
    number: u64,
    frames: &[u8],
) -> Result<(), Failed>
    ensures all { OnOk result ((K.seen out.new).written ≡ append_known (K.seen out.old).written (head_of letter number ++ replied frames.now ++ 10 ∷ [])) }
    ensures only { OnlyWrites (K.seen out.old) (K.seen out.new) }
{
    put_head(out, letter, number)?;
    put_frames(out, frames)?;
    put(out, b"\n")
}

// A space and a reply for each frame, or a space and `-`.
fn put_frames<K: Sink>(out: &mut K, frames: &[u8]) -> Result<(), Failed>
    ensures all { OnOk result ((K.seen out.new).written ≡ append_known (K.seen out.old).written (replied frames.now)) }
    ensures only { OnlyWrites (K.seen out.old) (K.seen out.new) }
{
    if frames.is_empty() {
        put(out, b" -")
    } else {
        put_spaced(out, frames)
    }
}

// Each line feed becomes a space, and carriage returns are left out. What stands between them is put at once.
fn put_spaced<K: Sink>(out: &mut K, frames: &[u8]) -> Result<(), Failed>
    ensures all { OnOk result ((K.seen out.new).written ≡ append_known (K.seen out.old).written (spaced frames.now)) }
    ensures only { OnlyWrites (K.seen out.old) (K.seen out.new) }
{
    let mut at = 0;
    while at < frames.len() {
        at += put_piece(out, &frames[at..])?;
    }
    Ok(())
}

// Puts the bytes up to the first line feed or carriage return, and that one, and answers how many they are.
fn put_piece<K: Sink>(out: &mut K, bytes: &[u8]) -> Result<usize, Failed>
    requires { 0 < length bytes.now }
    ensures some { IfOk result (λ count. 0 < count) }
    ensures within { IfOk result (λ count. count ≤ length bytes.now) }
    ensures all { IfOk result (λ count. (K.seen out.new).written ≡ append_known (K.seen out.old).written (spaced (take count bytes.now))) }
    ensures only { OnlyWrites (K.seen out.old) (K.seen out.new) }
{
    let count = plain_count(bytes);
    put(out, &bytes[..count])?;
    if count == bytes.len() {
        return Ok(count);
    }
    put_byte(out, bytes[count])?;
    Ok(count + 1)
}

// How many bytes stand before the first line feed or carriage return.
fn plain_count(bytes: &[u8]) -> usize
    ensures within { result ≤ length bytes.now }
    ensures plain { spaced (take result bytes.now) ≡ take result bytes.now }
{
    let mut count = 0;
    while count < bytes.len() && bytes[count] != b'\n' && bytes[count] != b'\r' {
        count += 1;
    }
    count
}

// A byte of a frame.
#[tactic(auto, using(arc_io::proofs::KnownMore::known_none))]
fn put_byte<K: Sink>(out: &mut K, byte: u8) -> Result<(), Failed>
    ensures all { OnOk result ((K.seen out.new).written ≡ append_known (K.seen out.old).written (spaced (byte ∷ []))) }
    ensures only { OnlyWrites (K.seen out.old) (K.seen out.new) }
{
    match byte {
        b'\n' => put(out, b" "),
        b'\r' => Ok(()),
        byte => put(out, &[byte]),
    }
}

/// Puts how many entries are recorded where all was made anew.
#[tactic(auto, using(arc_io::proofs::KnownMore::known_both))]
pub(crate) fn put_count<K: Sink>(out: &mut K, count: u64) -> Result<(), Failed>
    ensures all { OnOk result ((K.seen out.new).written ≡ append_known (K.seen out.old).written (counted_line count)) }
    ensures only { OnlyWrites (K.seen out.old) (K.seen out.new) }
{
    put(out, b"X recorded ")?;
    put_number(out, count)?;
    put(out, b"\n")
}
