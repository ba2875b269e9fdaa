// The sealed acknowledgement.
ghost use Rattle.std.specs.Prelude.{◌≡◌, true, length, map};
ghost use Rattle.std.specs.List.{list_all};
ghost use Rattle.dc09_frame.specs.Frames.{is_clean, frame_of, IsBody};
ghost use Rattle.dc09_frame.specs.Headers.{IsHeader};
ghost use Rattle.dc09_crypt.specs.Sealed.{pad_letter, ack_text, upper_digits, sealed_digits, sealed_ack_body};

use aes_chain::{Key, chain_encrypt};
use dc09_frame::{FrameBuf, Header, append_fields};

/// The bytes that an acknowledgement seals: the pad, a bar, a closing bracket and a stamp.
const TEXT_LEN: usize = 32;

/// Makes `out` the frame of the acknowledgement of a sealed message, under the key that opened it: `"*ACK"`, the header's
/// sequence, `R` field, `L` field and account byte for byte, `[` and 64 digits. They spell, encrypted, ten letters that hide
/// the rest, `|`, `]` and the stamp. The noise chooses the letters, so it should be new for each acknowledgement.
pub fn seal_ack(key: &Key, header: &Header, stamp: &[u8; 20], noise: &[u8; 10], out: &mut FrameBuf)
    requires { IsHeader header.now }
    ensures frame { out.new ≡ frame_of (sealed_ack_body key.now header.now stamp.now noise.now) }
    ensures body { IsBody (sealed_ack_body key.now header.now stamp.now noise.now) }
{
    let digits = sealed_digits(key, stamp, noise);
    out.begin_frame();
    out.append(b"\"*ACK\"");
    append_fields(header, out);
    out.append(b"[");
    out.append(&digits);
    out.end_frame();
}

// The digits of an acknowledgement.
fn sealed_digits(key: &Key, stamp: &[u8; 20], noise: &[u8; 10]) -> [u8; 2 * TEXT_LEN]
    ensures value { result ≡ sealed_digits key.now stamp.now noise.now }
    ensures clean { list_all is_clean result ≡ true }
{
    let mut text = ack_text(stamp, noise);
    chain_encrypt(key, &mut text);
    upper_digits(&text)
}

// What an acknowledgement seals.
fn ack_text(stamp: &[u8; 20], noise: &[u8; 10]) -> [u8; TEXT_LEN]
    ensures { result ≡ ack_text stamp.now noise.now }
{
    let mut text = [0; TEXT_LEN];
    let (pad, rest) = text.split_at_mut(10);
    let (marks, end) = rest.split_at_mut(2);
    pad.copy_from_slice(&pad_of(noise));
    marks.copy_from_slice(b"|]");
    end.copy_from_slice(stamp);
    text
}

// A letter from `A` to `Z` for each noise byte.
fn pad_of(noise: &[u8; 10]) -> [u8; 10]
    ensures { result ≡ map pad_letter noise.now }
{
    noise.map(|byte| b'A' + byte % 26)
}

// The bytes as pairs of upper-case digits.
fn upper_digits(bytes: &[u8; TEXT_LEN]) -> [u8; 2 * TEXT_LEN]
    ensures value { result ≡ upper_digits bytes.now }
    ensures clean { list_all is_clean result ≡ true }
{
    let mut digits = [0; 2 * TEXT_LEN];
    hex::encode_to_slice(bytes, &mut digits).unwrap();
    digits.make_ascii_uppercase();
    digits
}
