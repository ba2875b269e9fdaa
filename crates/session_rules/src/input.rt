// The input of a session: how much of it is taken at most, and reading the next piece of it.
ghost use Rattle.std.specs.Prelude.{◌≡◌, ◌<◌, ◌≤◌, ◌-◌, false, IfOk, length, take};
ghost use Rattle.arc_io.specs.Told.{Reads};
ghost use Rattle.session_rules.specs.Inputs.{input_limit};

use arc_io::{Failed, Port};

// How many bytes of an input are taken at most.
const INPUT_LIMIT: u64 = 1 << 40;

/// How many bytes a read is asked for at most.
pub const PIECE: usize = 4096;

/// How many more bytes of an input are taken behind so many, until the limit of 2^40.
pub fn room_behind(count: u64) -> u64
    requires { count ≤ input_limit }
    ensures { result ≡ input_limit - count }
{
    INPUT_LIMIT - count
}

/// The first bytes, at most so many.
pub fn up_to(bytes: &[u8], most: u64) -> &[u8]
    ensures value { result.now ≡ take most bytes.now }
    ensures short { length result.now ≤ most }
{
    if bytes.len() as u64 <= most {
        bytes
    } else {
        &bytes[..most as usize]
    }
}

/// Reads the next piece, of at most so many bytes, to the front of the buffer, and answers how many bytes it has: none only at
/// the input's end.
pub fn read_piece<P: Port>(
    port: &mut P,
    buffer: &mut [u8; PIECE],
    most: usize,
) -> Result<usize, Failed>
    requires some { 0 < most }
    requires fits { most ≤ 4096 }
    requires not_ended { (P.seen port.old).ended ≡ false }
    ensures bound { IfOk result (λ n. n ≤ most) }
    ensures told { Reads (P.seen port.old) (P.seen port.new) result buffer.new }
{
    port.read(&mut buffer[..most])
}
