// The forms of a script's lines, by what stands behind the letter and its space.
ghost use Rattle.std.specs.Prelude.{◌≡◌, ◌↔◌, ◌++◌, ◌∷◌, ◌<◌, ◌≤◌, ◌^◌, ◌==◌, codes, true, IsTrue};
ghost use Rattle.std.specs.List.{list_all, position};
ghost use Rattle.arc_data.specs.Digits.{is_hex};
ghost use Rattle.dc09_frame.specs.Frames.{IsBody, is_clean};
ghost use Rattle.script_lines.specs.Lines.{AreDigits};
ghost use Rattle.script_lines.specs.Reading.{IsReadAs, IsNumbered};

use crate::line::ScriptLine;
use arc_text::dec;
use dc09_frame::BODY_LIMIT;

// Moments lie before this one, the first of the year 10000.
const MOMENT_LIMIT: u64 = 253_402_300_800;

// How many lines the receiver has, and how many desks.
const LINES: u64 = 16;

const DESKS: u64 = 8;

// How many bytes the text of a command has at most.
const TEXT_LIMIT: usize = 1000;

/// `T MOMENT`
pub(crate) fn time<'a>(rest: &'a [u8]) -> Option<ScriptLine<'a>>
    ensures { IsReadAs (codes "T " ++ rest.now) result }
{
    let moment = dec(rest)?;
    if moment < MOMENT_LIMIT {
        Some(ScriptLine::Time { moment })
    } else {
        None
    }
}

/// `L N HEX`
pub(crate) fn feed<'a>(rest: &'a [u8]) -> Option<ScriptLine<'a>>
    ensures { IsReadAs (codes "L " ++ rest.now) result }
{
    let (line, digits) = numbered(rest, LINES)?;
    if are_digits(digits) {
        Some(ScriptLine::Feed { line, digits })
    } else {
        None
    }
}

/// `M N BODY`
pub(crate) fn message<'a>(rest: &'a [u8]) -> Option<ScriptLine<'a>>
    ensures { IsReadAs (codes "M " ++ rest.now) result }
{
    let (line, body) = numbered(rest, LINES)?;
    if is_body(body) {
        Some(ScriptLine::Message { line, body })
    } else {
        None
    }
}

/// `D N TEXT`
pub(crate) fn command<'a>(rest: &'a [u8]) -> Option<ScriptLine<'a>>
    ensures { IsReadAs (codes "D " ++ rest.now) result }
{
    let (desk, text) = numbered(rest, DESKS)?;
    if text.len() <= TEXT_LIMIT {
        Some(ScriptLine::Command { desk, text })
    } else {
        None
    }
}

// A number from 1 to the most, in decimal, and what stands behind the space that follows it.
fn numbered<'a>(bytes: &'a [u8], most: u64) -> Option<(usize, &'a [u8])>
    requires { most < 2 ^ 16 }
    ensures { IsNumbered most bytes.now result }
{
    let space = space(bytes)?;
    let number = dec(&bytes[..space])?;
    if number == 0 || number > most {
        return None;
    }
    Some((number as usize, &bytes[space + 1..]))
}

// Where the first space stands.
fn space(bytes: &[u8]) -> Option<usize>
    ensures { result ≡ position (λ b. b == 32) bytes.now }
{
    bytes.iter().position(|byte| *byte == b' ')
}

// Hexadecimal digits, in either case, of one byte at least.
fn are_digits(digits: &[u8]) -> bool
    ensures { IsTrue result ↔ AreDigits digits.now }
{
    !digits.is_empty() && digits.len() % 2 == 0 && are_hex(digits)
}

// Hexadecimal digits, in either case.
fn are_hex(bytes: &[u8]) -> bool
    ensures { result ≡ list_all is_hex bytes.now }
{
    bytes.iter().all(|byte| is_hex(*byte))
}

// A hexadecimal digit.
fn is_hex(byte: u8) -> bool
    ensures { result ≡ is_hex byte }
{
    matches!(byte, b'0'..=b'9' | b'A'..=b'F' | b'a'..=b'f')
}

// The body of a frame.
fn is_body(body: &[u8]) -> bool
    ensures { IsTrue result ↔ IsBody body.now }
{
    matches!(body, [b'"', ..]) && body.len() <= BODY_LIMIT && are_clean(body)
}

// Neither line feeds nor carriage returns.
fn are_clean(bytes: &[u8]) -> bool
    ensures { result ≡ list_all is_clean bytes.now }
{
    bytes.iter().all(|byte| is_clean(*byte))
}

// Neither a line feed nor a carriage return.
fn is_clean(byte: u8) -> bool
    ensures { result ≡ is_clean byte }
{
    byte != b'\n' && byte != b'\r'
}
