// The check of a body.
ghost use Rattle.std.specs.Prelude.{◌≡◌, [], ◌∷◌};
ghost use Rattle.dc09_frame.specs.Check.{check_of, sum_after};

use crate::tables::{
    AFTER_8, AFTER_16, AFTER_24, AFTER_32, AFTER_40, AFTER_48, AFTER_56, AFTER_64,
};

/// The check of some bytes: the 16-bit remainder for the polynomial x^16 + x^15 + x^2 + 1, of each byte the lowest bit
/// first, with 0 as the start value and nothing changed at the end.
pub fn check(bytes: &[u8]) -> u16
    ensures { result ≡ check_of bytes.now }
{
    let (blocks, rest) = bytes.as_chunks::<8>();
    let mut sum = 0;
    for block in blocks {
        sum = with_block(sum, block);
    }
    with_bytes(sum, rest)
}

// The sum after eight bytes more. The division is linear, so each byte leaves alone what its table says, and all together leave the sum
// of it: no look-up waits for the one before, as it does byte by byte.
fn with_block(sum: u16, block: &[u8; 8]) -> u16
    ensures { result ≡ sum_after sum block.now }
{
    let [low, high] = sum.to_le_bytes();
    let [a, b, c, d, e, f, g, h] = *block;
    AFTER_64[usize::from(a ^ low)]
        ^ AFTER_56[usize::from(b ^ high)]
        ^ AFTER_48[usize::from(c)]
        ^ AFTER_40[usize::from(d)]
        ^ AFTER_32[usize::from(e)]
        ^ AFTER_24[usize::from(f)]
        ^ AFTER_16[usize::from(g)]
        ^ AFTER_8[usize::from(h)]
}

// The sum after some bytes more, one after another.
fn with_bytes(sum: u16, bytes: &[u8]) -> u16
    ensures { result ≡ sum_after sum bytes.now }
{
    let mut sum = sum;
    for byte in bytes {
        sum = with_byte(sum, *byte);
    }
    sum
}

// The sum after one byte more.
fn with_byte(sum: u16, byte: u8) -> u16
    ensures { result ≡ sum_after sum (byte ∷ []) }
{
    let [low, high] = sum.to_le_bytes();
    u16::from(high) ^ AFTER_8[usize::from(byte ^ low)]
}
