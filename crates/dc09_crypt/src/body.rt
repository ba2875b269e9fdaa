// The body of a sealed message.
ghost use Rattle.std.specs.Prelude.{◌≡◌, ◌≤◌, ◌*◌, [], true, false, length};
ghost use Rattle.std.specs.List.{list_all};
ghost use Rattle.arc_data.specs.Digits.{is_hex, bytes_spelled};
ghost use Rattle.dc09_crypt.specs.Sealed.{is_cipher, text_under, opening_of, LiesIn};

use crate::opening::Opening;
use aes_chain::{Key, chain_decrypt};
use dc09_frame::{BODY_LIMIT, FrameBuf};

/// The digits of a block.
const BLOCK_DIGITS: usize = 32;

/// The bytes that the digits of the longest body can spell: 127 blocks.
const LONGEST: usize = 2032;

/// What the bytes after a sealed message's header are, under a key: digits that spell AES blocks (FIPS 197), chained with a
/// start vector of zeros, of a text that has a pad, `|`, the rest and a stamp. `out` gets the decrypted text, in which
/// `Text`'s places lie, and is empty where nothing could be decrypted.
pub fn open_body(key: &Key, digits: &[u8], out: &mut FrameBuf) -> Opening
    requires { length digits.now ≤ BODY_LIMIT }
    ensures opening { result ≡ opening_of key.now digits.now }
    ensures text { is_cipher digits.now ≡ true → out.new ≡ text_under key.now digits.now }
    ensures none { is_cipher digits.now ≡ false → out.new ≡ [] }
    ensures within { LiesIn result out.new }
{
    out.clear();
    if digits.len() < BLOCK_DIGITS || digits.len() % BLOCK_DIGITS != 0 {
        return Opening::NotCipher;
    }
    let mut bytes = [0; LONGEST];
    let text = &mut bytes[..digits.len() / 2];
    if !decode(digits, text) {
        return Opening::NotCipher;
    }
    chain_decrypt(key, text);
    out.append(text);
    Opening::of_text(text)
}

// Decodes pairs of hexadecimal digits, where all are such digits, and says whether they are.
fn decode(digits: &[u8], bytes: &mut [u8]) -> bool
    requires { length digits.now ≡ 2 * length bytes.old }
    ensures all { result ≡ list_all is_hex digits.now }
    ensures spelled { result ≡ true → bytes.new ≡ bytes_spelled digits.now }
{
    hex::decode_to_slice(digits, bytes).is_ok()
}
