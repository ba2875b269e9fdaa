// The bytes that hexadecimal digits spell.
ghost use Rattle.std.specs.Prelude.{◌≡◌, ◌≤◌, length};
ghost use Rattle.arc_data.specs.Digits.{bytes_spelled};
ghost use Rattle.script_lines.specs.Lines.{AreDigits};

/// More digits than a line of a script has: no line is longer.
pub const MOST_DIGITS: usize = 16384;

/// The bytes that hexadecimal digits spell, put to the front of a buffer.
pub fn spelled<'a>(digits: &[u8], bytes: &'a mut [u8; MOST_DIGITS / 2]) -> &'a [u8]
    requires digits { AreDigits digits.now }
    requires short { length digits.now ≤ MOST_DIGITS }
    ensures { result.now ≡ bytes_spelled digits.now }
{
    let bytes = &mut bytes[..digits.len() / 2];
    let _ = hex::decode_to_slice(digits, bytes);
    bytes
}
