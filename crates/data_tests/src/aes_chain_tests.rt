// Values from outside: FIPS 197, blocks that `openssl enc -d -aes-*-ecb -nopad` wrote, and chains that `openssl enc -aes-*-cbc -nopad`
// wrote with a vector of zeros.
use crate::checks::{cut, holds, number, same, same_bytes};
use aes_chain::{
    Key, chain_decrypt, chain_encrypt, decrypt_block, encrypt_block, law_chain_decrypted_encrypted,
    law_chain_encrypted_decrypted, law_decrypted_encrypted, law_encrypted_decrypted,
};
use std::alloc::Global;
use std::process::Abort;

// Fills the room: its byte i is (step * i + seed) modulo 251.
fn fill(room: &mut [u8], step: u64, seed: u64) {
    let mut value = seed;
    for byte in room.iter_mut() {
        *byte = (value % 251) as u8;
        value = value.wrapping_add(step) % 251;
    }
}

// A text as one number of 32 bits: each byte is added to 31 times the number before.
fn fold(text: &[u8]) -> u64 {
    let mut sum: u32 = 0;
    for byte in text {
        sum = sum.wrapping_mul(31).wrapping_add(u32::from(*byte));
    }
    u64::from(sum)
}

// A key of so many bytes, at most 32, that are filled so.
fn key_of(rt: &impl Abort, len: usize, step: u64, seed: u64) -> Key {
    assert!(rt; len <= 32);
    let mut bytes = [0; 32];
    fill(&mut bytes, step, seed);
    Key::new(&bytes[..len]).expect(rt, "a key")
}

// The block is encrypted to another, and that is decrypted to the block.
fn compare_block(rt: &impl Abort, key: &Key, plain: u128, cipher: u128) {
    let mut block = plain.to_be_bytes();
    encrypt_block(key, &mut block);
    same_bytes(rt, &block, &cipher.to_be_bytes(), "encrypted");
    decrypt_block(key, &mut block);
    same_bytes(rt, &block, &plain.to_be_bytes(), "decrypted");
    key.law_key();
}

// The block of FIPS 197, appendix C.
const PLAIN: u128 = 0x00112233_44556677_8899aabb_ccddeeff;

#[test]
fn standard_blocks(rt: HostRuntime) {
    let short = key_of(&rt, 16, 1, 0);
    compare_block(&rt, &short, PLAIN, 0x69c4e0d8_6a7b0430_d8cdb780_70b4c55a);
    let middle = key_of(&rt, 24, 1, 0);
    compare_block(&rt, &middle, PLAIN, 0xdda97ca4_864cdfe0_6eaf70a0_ec0d7191);
    let long = key_of(&rt, 32, 1, 0);
    compare_block(&rt, &long, PLAIN, 0x8ea2b7ca_516745bf_eafc4990_4b496089);
    law_decrypted_encrypted();
    law_encrypted_decrypted();
}

// The keys of FIPS 197, appendix A, with the last words of their expansions: the round key of the last round, which is added last. The
// blocks are those that are encrypted to it, so that it is added to zeros.
#[test]
fn last_words(rt: HostRuntime) {
    let short: u128 = 0x2b7e1516_28aed2a6_abf71588_09cf4f3c;
    let key = Key::new(&short.to_be_bytes()).expect(&rt, "a key");
    let block = 0x121651c9_ad10e6c0_3f83af82_6c3af4bc;
    compare_block(&rt, &key, block, 0xd014f9a8_c9ee2589_e13f0cc8_b6630ca6);
    let middle =
        b"\x8e\x73\xb0\xf7\xda\x0e\x64\x52\xc8\x10\xf3\x2b\x80\x90\x79\xe5\x62\xf8\xea\xd2\x52\x2c\x6b\x7b";
    let key = Key::new(middle).expect(&rt, "a key");
    let block = 0x458aab49_f5313f57_8a4d9f80_0b731925;
    compare_block(&rt, &key, block, 0xe98ba06f_448c773c_8ecc7204_01002202);
    let long =
        b"\x60\x3d\xeb\x10\x15\xca\x71\xbe\x2b\x73\xae\xf0\x85\x7d\x77\x81\x1f\x35\x2c\x07\x3b\x61\x08\xd7\x2d\x98\x10\xa3\x09\x14\xdf\xf4";
    let key = Key::new(long).expect(&rt, "a key");
    let block = 0x8948ed23_3c0a9bbf_90e3e2ac_f6e5e32c;
    compare_block(&rt, &key, block, 0xfe4890d1_e6188d0b_046df344_706c631e);
}

#[test]
fn two_equal_blocks(rt: HostRuntime) {
    let key = key_of(&rt, 16, 1, 0);
    let first: u128 = 0x69c4e0d8_6a7b0430_d8cdb780_70b4c55a;
    let second: u128 = 0x7d7786be_32d059a6_0ca8021a_65dd9f09;
    let mut text = [0; 32];
    text[..16].copy_from_slice(&PLAIN.to_be_bytes());
    text[16..].copy_from_slice(&PLAIN.to_be_bytes());
    chain_encrypt(&key, &mut text);
    same_bytes(&rt, &text[..16], &first.to_be_bytes(), "the first");
    same_bytes(&rt, &text[16..], &second.to_be_bytes(), "the second");
    // The second is the first block under the same key, of the first's cipher block added to the plain one.
    compare_block(&rt, &key, 0x69d5c2eb_2e2e6247_50541d3b_bc692ba5, second);
}

// Chains as rows: the key's length, the seed of key and text, how many blocks, and in hexadecimal digits what the cipher text folds to,
// and its last block.
const CHAINS: &str = "\
16 1 1 be9329a6 d0cef6a0d4563e27cc822633b2b0c7b9
16 10 2 067652e2 6f1ec4122a51aa7966be8f0aac5a20e6
16 19 3 7e6082b8 6b7ab2f0470517a82de4c7b3910605ec
16 28 10 f0857bdd 44e0679c93d542054d62450a44631af4
16 37 64 9577e978 8738a6f77b2cd034fee784da080093a4
16 46 100 dab527be bc514c18b28bc86955ef2c6ff372f2ff
16 55 128 cf5b685b d704aa6e84474ab7465535995b5b5782
16 64 255 604051c1 53c8815852a3ad2896fd137fe9abd873
24 73 1 d15438d9 6f7950c0b8d710bdb85ef9540879a203
24 82 2 9aff58ac ace4ac6322da8b819d7ae3085595c6b0
24 91 3 c33540e9 29c984cb7b3658cb1317c4670a9ac84b
24 100 10 a7a89762 8be512d128c5f731723fb0c7dcb7dd47
24 109 64 23a2f05d f3df3cd89943a7ad79091e2b18c106ce
24 118 100 8fcb1298 e444c58dc4a98f060e28592537bb7127
24 127 128 af61dcde b6bf6a3997d59a67528527775e5051f1
24 136 255 bf061f88 7bcf1d24bee5a968023f0f2e211cc4b8
32 145 1 dbb5f7db fc1e2d70e5f7f4b0ac198f1b70819654
32 154 2 b6ee1133 5c33de9a1333d587d66f31e88238acf3
32 163 3 8a4c0389 368b5f126166d5a6642cf01f63330544
32 172 10 41e93037 498194a927171594d3edd708c4e54a9c
32 181 64 e7990130 15112f366c093c03b2ed1d8810bc6b02
32 190 100 6fcbdfa2 67a557ca6b1993f4641b6e610a29d6f0
32 199 128 80ba95c3 08096021022bb7af20943a8c40d5fbaa
32 208 255 dc86a0c2 270b14df5fd32a3a0d1045c4e3e2e3d2";

#[test]
fn chains(rt: HostRuntime) {
    for row in CHAINS.lines() {
        check_row(&rt, rt.alloc(), row);
    }
    law_chain_decrypted_encrypted();
    law_chain_encrypted_decrypted();
}

fn check_row(rt: &impl Abort, alloc: Global, row: &str) {
    let (len, rest) = cut(rt, row, ' ');
    let (seed, rest) = cut(rt, rest, ' ');
    let (blocks, rest) = cut(rt, rest, ' ');
    let (folded, last) = cut(rt, rest, ' ');
    let seed = number(rt, seed);
    let key = key_of(rt, number(rt, len) as usize, 29, seed);
    let folded = u64::from_str_radix(folded, 16).expect(rt, "digits");
    let last = u128::from_str_radix(last, 16).expect(rt, "digits");
    let blocks = number(rt, blocks);
    assert!(rt; blocks >= 1 && blocks <= 255);
    let mut text = vec![in alloc; 0; 16 * blocks as usize].expect(rt, "memory");
    fill(&mut text, 31, seed);
    check_chain(rt, &key, &mut text, (folded, last), row);
}

// The text is encrypted to one that folds to a number and ends with a block, and decrypted to itself.
fn check_chain(rt: &impl Abort, key: &Key, text: &mut [u8], want: (u64, u128), row: &str) {
    assert!(rt; text.len() >= 16 && text.len() % 16 == 0);
    let (folded, last) = want;
    let plain = fold(text);
    chain_encrypt(key, text);
    same(rt, fold(text), folded, row);
    let block = &text[text.len() - 16..];
    same_bytes(rt, block, &last.to_be_bytes(), row);
    chain_decrypt(key, text);
    same(rt, fold(text), plain, row);
}

#[test]
fn other_lengths(rt: HostRuntime) {
    let bytes = [0; 64];
    for len in [0, 1, 15, 17, 20, 23, 25, 31, 33, 64] {
        holds(&rt, Key::new(&bytes[..len]).is_none(), "no key");
    }
    let key = key_of(&rt, 16, 0, 0);
    chain_encrypt(&key, &mut []);
    chain_decrypt(&key, &mut []);
}
