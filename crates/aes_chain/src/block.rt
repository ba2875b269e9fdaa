// One block through the cipher, as four columns of 32 bits with the first row as the lowest byte. A
// table for each row gives what its byte adds to its column.

ghost use Rattle.std.specs.Prelude.{◌≡◌, ℕ, ◌+◌, ◌-◌, ◌*◌, ◌<◌, ◌≤◌, [], ◌∷◌, List, length, slice_index};
ghost use Rattle.std.specs.Int.{byte_at, to_le_bytes, w32};
ghost use Rattle.aes_chain.specs.Field.{inv_s_box, s_box};
ghost use Rattle.aes_chain.specs.State.{added, inv_mix_columns, inv_mix_matrix, inv_shift_rows, inv_sub_bytes, mix_columns, mix_matrix, shift_rows, sub_bytes};
ghost use Rattle.aes_chain.specs.Cipher.{cipher};
ghost use Rattle.aes_chain.specs.Words.{column_times, eq_inv_cipher, keys_at, state_at};

use crate::tables::{
    inv_mix_0, inv_mix_1, inv_mix_2, inv_mix_3, inv_s_box, mix_0, mix_1, mix_2, mix_3, s_box,
};

// The words of the longest key expansion.
pub(crate) const WORDS: usize = 60;

// The word of four bytes, the first as the lowest.
pub(crate) fn word(block: &[u8], i: usize) -> u32
    requires { i + 4 ≤ length block.now }
    ensures { to_le_bytes w32 result ≡ slice_index block.now i ∷ slice_index block.now (i + 1)
        ∷ slice_index block.now (i + 2) ∷ slice_index block.now (i + 3) ∷ [] }
{
    u32::from_le_bytes([block[i], block[i + 1], block[i + 2], block[i + 3]])
}

// The columns of a block.
pub(crate) fn load(block: &[u8]) -> [u32; 4]
    requires { length block.now ≡ 16 }
    ensures { state_at result 0 ≡ block.now }
{
    [
        word(block, 0),
        word(block, 4),
        word(block, 8),
        word(block, 12),
    ]
}

// Writes the columns into a block.
pub(crate) fn store(columns: [u32; 4], block: &mut [u8])
    requires { length block.old ≡ 16 }
    ensures { block.new ≡ state_at columns 0 }
{
    let [a, b, c, d] = columns;
    let [a0, a1, a2, a3] = a.to_le_bytes();
    let [b0, b1, b2, b3] = b.to_le_bytes();
    let [c0, c1, c2, c3] = c.to_le_bytes();
    let [d0, d1, d2, d3] = d.to_le_bytes();
    block.copy_from_slice(&[
        a0, a1, a2, a3, b0, b1, b2, b3, c0, c1, c2, c3, d0, d1, d2, d3,
    ]);
}

// The sum of two blocks.
#[inline(always)]
pub(crate) fn add(s: [u32; 4], k: [u32; 4]) -> [u32; 4]
    ensures { state_at result 0 ≡ added (state_at s 0) (state_at k 0) }
{
    [s[0] ^ k[0], s[1] ^ k[1], s[2] ^ k[2], s[3] ^ k[3]]
}

// The four words from place `i` on: a round key.
#[inline(always)]
fn key_at(words: &[u32; WORDS], i: usize) -> [u32; 4]
    requires { i + 4 ≤ length words.now }
    ensures { state_at result 0 ≡ state_at words.now i }
{
    [words[i], words[i + 1], words[i + 2], words[i + 3]]
}

// A column after the S-box and MixColumns, from the words whose bytes ShiftRows puts there.
#[inline(always)]
fn mixed(a: u32, b: u32, c: u32, d: u32) -> u32
    ensures { to_le_bytes w32 result ≡ column_times mix_matrix (s_box (byte_at 0 a)) (s_box (byte_at 1 b))
        (s_box (byte_at 2 c)) (s_box (byte_at 3 d)) }
{
    (mix_0(a.to_le_bytes()[0]) ^ mix_1(b.to_le_bytes()[1]))
        ^ (mix_2(c.to_le_bytes()[2]) ^ mix_3(d.to_le_bytes()[3]))
}

// A column after the S-box alone.
#[inline(always)]
pub(crate) fn substituted(a: u32, b: u32, c: u32, d: u32) -> u32
    ensures { to_le_bytes w32 result ≡ s_box (byte_at 0 a) ∷ s_box (byte_at 1 b) ∷ s_box (byte_at 2 c)
        ∷ s_box (byte_at 3 d) ∷ [] }
{
    u32::from_le_bytes([
        s_box(a.to_le_bytes()[0]),
        s_box(b.to_le_bytes()[1]),
        s_box(c.to_le_bytes()[2]),
        s_box(d.to_le_bytes()[3]),
    ])
}

#[inline(always)]
pub(crate) fn inv_mixed(a: u32, b: u32, c: u32, d: u32) -> u32
    ensures { to_le_bytes w32 result ≡ column_times inv_mix_matrix (inv_s_box (byte_at 0 a)) (inv_s_box (byte_at 1 b))
        (inv_s_box (byte_at 2 c)) (inv_s_box (byte_at 3 d)) }
{
    (inv_mix_0(a.to_le_bytes()[0]) ^ inv_mix_1(b.to_le_bytes()[1]))
        ^ (inv_mix_2(c.to_le_bytes()[2]) ^ inv_mix_3(d.to_le_bytes()[3]))
}

#[inline(always)]
fn inv_substituted(a: u32, b: u32, c: u32, d: u32) -> u32
    ensures { to_le_bytes w32 result ≡ inv_s_box (byte_at 0 a) ∷ inv_s_box (byte_at 1 b) ∷ inv_s_box (byte_at 2 c)
        ∷ inv_s_box (byte_at 3 d) ∷ [] }
{
    u32::from_le_bytes([
        inv_s_box(a.to_le_bytes()[0]),
        inv_s_box(b.to_le_bytes()[1]),
        inv_s_box(c.to_le_bytes()[2]),
        inv_s_box(d.to_le_bytes()[3]),
    ])
}

#[inline(always)]
fn round(s: [u32; 4], key: [u32; 4]) -> [u32; 4]
    ensures { state_at result 0 ≡ added (mix_columns (shift_rows (sub_bytes (state_at s 0)))) (state_at key 0) }
{
    let [a, b, c, d] = s;
    add(
        [
            mixed(a, b, c, d),
            mixed(b, c, d, a),
            mixed(c, d, a, b),
            mixed(d, a, b, c),
        ],
        key,
    )
}

#[inline(always)]
fn last_round(s: [u32; 4], key: [u32; 4]) -> [u32; 4]
    ensures { state_at result 0 ≡ added (shift_rows (sub_bytes (state_at s 0))) (state_at key 0) }
{
    let [a, b, c, d] = s;
    add(
        [
            substituted(a, b, c, d),
            substituted(b, c, d, a),
            substituted(c, d, a, b),
            substituted(d, a, b, c),
        ],
        key,
    )
}

#[inline(always)]
fn inv_round(s: [u32; 4], key: [u32; 4]) -> [u32; 4]
    ensures { state_at result 0
        ≡ added (inv_mix_columns (inv_sub_bytes (inv_shift_rows (state_at s 0)))) (state_at key 0) }
{
    let [a, b, c, d] = s;
    add(
        [
            inv_mixed(a, d, c, b),
            inv_mixed(b, a, d, c),
            inv_mixed(c, b, a, d),
            inv_mixed(d, c, b, a),
        ],
        key,
    )
}

#[inline(always)]
fn last_inv_round(s: [u32; 4], key: [u32; 4]) -> [u32; 4]
    ensures { state_at result 0 ≡ added (inv_sub_bytes (inv_shift_rows (state_at s 0))) (state_at key 0) }
{
    let [a, b, c, d] = s;
    add(
        [
            inv_substituted(a, d, c, b),
            inv_substituted(b, a, d, c),
            inv_substituted(c, b, a, d),
            inv_substituted(d, c, b, a),
        ],
        key,
    )
}

// The cipher of so many rounds, over the round keys of `words`.
pub(crate) fn encrypt(words: &[u32; WORDS], rounds: usize, block: [u32; 4]) -> [u32; 4]
    requires some { 1 ≤ rounds }
    requires fits { rounds ≤ 14 }
    ensures { state_at result 0 ≡ cipher rounds (keys_at words.now) (state_at block 0) }
{
    let mut s = add(block, key_at(words, 0));
    for r in 1..rounds {
        let key = key_at(words, 4 * r);
        let next = round(s, key);
        s = next;
    }
    last_round(s, key_at(words, 4 * rounds))
}

// The equivalent inverse cipher of so many rounds, over the round keys of `words`.
pub(crate) fn decrypt(words: &[u32; WORDS], rounds: usize, block: [u32; 4]) -> [u32; 4]
    requires some { 1 ≤ rounds }
    requires fits { rounds ≤ 14 }
    ensures { state_at result 0 ≡ eq_inv_cipher rounds (keys_at words.now) (state_at block 0) }
{
    let mut s = add(block, key_at(words, 4 * rounds));
    for n in 1..rounds {
        let key = key_at(words, 4 * (rounds - n));
        let next = inv_round(s, key);
        s = next;
    }
    last_inv_round(s, key_at(words, 0))
}
