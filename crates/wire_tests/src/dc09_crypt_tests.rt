// Cipher digits are from `openssl enc -aes-*-cbc -nopad` with a vector of zeros, and the first from FIPS 197, appendix C.
ghost use Rattle.std.specs.Prelude.{◌≡◌, true};
ghost use Rattle.std.specs.List.{list_all};
ghost use Rattle.dc09_frame.specs.Frames.{is_clean};

use crate::rows::{Tells, compare, holds, same, same_bytes};
use aes_chain::Key;
use dc09_crypt::{Opening, law_acks_open_again, open_body, seal_ack};
use dc09_frame::{BODY_LIMIT, FrameBuf, Header};
use std::alloc::{AllocError, Global};
use std::process::Abort;
use std::test::Fail;

// The keys of FIPS 197, appendix C, are the first 16, 24 and 32 of these.
const KEY: &[u8; 32] = &[
    0, 1, 2, 3, 4, 5, 6, 7, 8, 9, 10, 11, 12, 13, 14, 15, 16, 17, 18, 19, 20, 21, 22, 23, 24, 25,
    26, 27, 28, 29, 30, 31,
];

const FIPS: &[u8] = b"\x00\x11\x22\x33\x44\x55\x66\x77\x88\x99\xAA\xBB\xCC\xDD\xEE\xFF";

// The last stamp of the rows, `_01:47:20,09-09-2001`.
const MOMENT: u64 = 1_000_000_040;

// The key of so many bytes, in decimal.
fn key_of(size: &str) -> Result<Key, Fail> {
    let bytes = KEY.get(..size.parse()?).ok_or("no such key")?;
    Ok(Key::new(bytes).ok_or("no key")?)
}

// Opens digits under the key of so many bytes.
fn opened(size: &str, digits: &[u8], out: &mut FrameBuf) -> Result<Opening, Fail> {
    let key = key_of(size)?;
    if digits.len() > BODY_LIMIT {
        return Err("digits of no body")?;
    }
    Ok(open_body(&key, digits, out))
}

// How digits open, with a `:` before the text that they hold, how many bytes the key has, and the digits. The four blocks of FIPS 197
// have no bar, and of the last rows the digits are none of blocks.
const OPENINGS: &str = "\
NoBar:QWERTYUIOPAS_01:47:20,09-09-2001;16;A2721EA32E74E992CC9F6A52C916F10262DE4DFF860EAFC1F3361A05F82D1FEA
NoStamp:QWERTYUIOPASDFG|;16;3F1E0DF5E62BED2CA66E4FBCF2EB27F8
NoStamp:QWERTYUIOPAS|01:47:20,09-09-2001;16;674052541957870FB1E0F7A44B3C2F307EF842A2D596F4C1A3357D66525EC0B4
NoStamp:Q|#1234|NRP]_01:47:60,09-09-2001;16;ABFEF34E7D0BBB849EC2501BD73432B5B5B9254E3BF00320BD551162285B05BE
NoStamp:Q|#1234|NRP]_01:47:20.09-09-2001;16;ABFEF34E7D0BBB849EC2501BD73432B59CA37F2FBF63667E28EF85FAFB7CC1FB
1000000040 1 12:|#1234|NRP0]_01:47:20,09-09-2001;16;AEA9E16A15E57FEA0045388A069301928BBEF5B4C4A63BFF9BFF7DF9D14C2970
1000000040 2 12:Q|#1234|NRP]_01:47:20,09-09-2001;16;ABFEF34E7D0BBB849EC2501BD73432B54158C402AF100EFE4A880A5B443BD7FF
1000000040 2 12:Q|#1234|NRP]_01:47:20,09-09-2001;16;abfef34e7d0bbb849ec2501bd73432b54158c402af100efe4a880a5b443bd7ff
1000000040 2 12:Q|#1234|NRP]_01:47:20,09-09-2001;24;8104D44E490CEB2E1BCCAD4118032687F4CD8FFECCA651103DB3ACF46C26CF71
1000000040 2 12:Q|#1234|NRP]_01:47:20,09-09-2001;32;3FBD1193AC3B085FDDC8A59C42A838237117D6EFA71CFCA2D9549257A810BDDA
1000000040 16 28:QWERTYUIOPASDFG|1234|NRP000]_01:47:20,09-09-2001;16;3F1E0DF5E62BED2CA66E4FBCF2EB27F8FA4E326D789D47B79228D5A4744EF9A323FB53D783A52A5C81E180743F22EA47
1000000040 12 12:QWERTYUIOPA|_01:47:20,09-09-2001;16;452026C2502A83018E12D1000600702C430E7DD0C4B44321D7B0B6F11AA2D23D
NoBar:FIPS 197;16;69C4E0D86A7B0430D8CDB78070B4C55A
NoBar:FIPS 197;16;69c4e0d86a7b0430d8cdb78070b4c55a
NoBar:FIPS 197;24;DDA97CA4864CDFE06EAF70A0EC0D7191
NoBar:FIPS 197;32;8EA2B7CA516745BFEAFC49904B496089
NotCipher:;16;
NotCipher:;16;69C4E0D86A7B0430
NotCipher:;16;69C4E0D86A7B0430D8CDB78070B4C55
NotCipher:;16;69C4E0D86A7B0430D8CDB78070B4C55A6
NotCipher:;16;69C4E0D86A7B0430D8CDB78070B4C55A69C4E0D86A7B0430
NotCipher:;16;/9C4E0D86A7B0430D8CDB78070B4C55A
NotCipher:;16;:9C4E0D86A7B0430D8CDB78070B4C55A
NotCipher:;16;69C4E0D86A7B0430D8CDB78070B4C55G
NotCipher:;16;69c4e0d86a7b0430d8cdb78070b4c55`
NotCipher:;16;69C4E0D86A7B0430D8CDB78070B4C55]";

// Tells how digits open, into the buffer of those before them.
#[derive(Drop)]
struct Openings {
    out: FrameBuf,
}

impl Tells for Openings {
    fn tell(&mut self, alloc: Global, input: &str, told: &mut Vec<u8>) -> Result<(), Fail> {
        let (size, digits) = input.split_once(';').ok_or("no row")?;
        let opening = opened(size, digits.as_bytes(), &mut self.out)?;
        tell_opening(alloc, opening, told)?;
        told.push(b':')?;
        Ok(told.extend_from_slice(shown(self.out.bytes()))?)
    }
}

fn tell_opening(alloc: Global, opening: Opening, told: &mut Vec<u8>) -> Result<(), AllocError> {
    match opening {
        Opening::NotCipher => told.extend_from_slice(b"NotCipher"),
        Opening::NoBar => told.extend_from_slice(b"NoBar"),
        Opening::NoStamp => told.extend_from_slice(b"NoStamp"),
        Opening::Text { from, to, stamp } => {
            let text = format!(in alloc; "{stamp} {from} {to}")?;
            told.extend_from_slice(text.as_bytes())
        }
    }
}

// The block of FIPS 197 is no text.
fn shown(bytes: &[u8]) -> &[u8] {
    if bytes == FIPS { b"FIPS 197" } else { bytes }
}

#[test]
fn opens_bodies(rt: HostRuntime) -> Result<(), Fail> {
    let out = FrameBuf::new();
    compare(&rt, rt.alloc(), OPENINGS, &mut Openings { out })
}

// The digits of a text behind a pad of 1,900 bytes: 118 equal blocks, and 12 bytes more.
fn behind_a_long_pad(alloc: Global) -> Result<Vec<u8>, AllocError> {
    let mut digits = Vec::new(alloc);
    for _ in 0..118u8 {
        digits.extend_from_slice(b"41010A68F223766398C1A68F9093409B")?;
    }
    digits.extend_from_slice(
        b"66AB5E36AB7E1CDECF627A3107C3E7DEC7BAC88D9862F2F8529E131908A86045AF1E0E97D54192BB22D2243BA9491955",
    )?;
    Ok(digits)
}

#[test]
fn opens_behind_a_long_pad(rt: HostRuntime) -> Result<(), Fail> {
    let digits = behind_a_long_pad(rt.alloc())?;
    let mut out = FrameBuf::new();
    let opening = opened("16", &digits, &mut out)?;
    let want = Opening::Text {
        from: 1901,
        to: 1916,
        stamp: MOMENT,
    };
    same(&rt, &opening, &want, "a long pad");
    let first = b"QWERTYUIOPASDFGH\x10\x56\x4F\x3A\xA6\x7A";
    holds(&rt, out.bytes().starts_with(first), "the first bytes");
    let last = b"\xD3QWERTYUIOPAS|#1234|NRP0000]]_01:47:20,09-09-2001";
    holds(&rt, out.bytes().ends_with(last), "the last bytes");
    Ok(())
}

// The acknowledgement of a body is this frame, under the key of so many bytes.
fn compare_sealed(
    rt: &impl Abort,
    size: &str,
    body: &[u8],
    stamp: &[u8; 20],
    noise: &[u8; 10],
    frame: &[u8],
) -> Result<(), Fail>
    requires { list_all is_clean stamp.now ≡ true }
{
    let mut out = FrameBuf::new();
    let key = key_of(size)?;
    let (header, _) = Header::read(body).ok_or("no header")?;
    seal_ack(&key, &header, stamp, noise, &mut out);
    same_bytes(rt, out.bytes(), frame, size);
    Ok(())
}

#[test]
fn seals_acknowledgements(rt: HostRuntime) -> Result<(), Fail> {
    let stamp = b"_01:47:20,09-09-2001";
    let noise = [0, 1, 2, 3, 4, 5, 6, 7, 8, 9];
    let body = b"\"*ADM-CID\"0001L0#1234[";
    let frame =
        b"\n71E20052\"*ACK\"0001L0#1234[AF397A7C3356E88ECA05A507CF0B250F8887B41FECB1B15FF7BA41C2FB10E14D\r";
    compare_sealed(&rt, "16", body, stamp, &noise, frame)?;
    let noise = [25, 26, 51, 52, 77, 78, 255, 254, 128, 130];
    let body = b"\"*ADM-CID\"0007RaBcDeFL01234f#12ab[";
    let frame =
        b"\nFF59005E\"*ACK\"0007RaBcDeFL01234f#12ab[5090E9F28F250863ACEBEAB89499DA71B46711FECCA9BB7F449AEFCA1300B808\r";
    compare_sealed(&rt, "24", body, stamp, &noise, frame)?;
    let stamp = b"_23:59:59,12-31-9999";
    let body = b"\"*NULL\"9999R123456L123456#0123456789abcdef[";
    let frame =
        b"\n34ED006A\"*ACK\"9999R123456L123456#0123456789abcdef[9C48D49D3421D75F4F2FDA4368EEFB6FAF7AE756610D9DCB7C4228D553969ED7\r";
    compare_sealed(&rt, "32", body, stamp, &[255; 10], frame)?;
    law_acks_open_again();
    Ok(())
}
