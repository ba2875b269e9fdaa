// A key, expanded once.

ghost use Rattle.std.specs.Prelude.{◌≡◌, ℕ, ◌+◌, ◌-◌, ◌*◌, ◌<◌, ◌≤◌, ◌↔◌, List, length, map, take, slice_index, IfSome, IsSome};
ghost use Rattle.std.specs.Int.{byte_at, to_le_bytes, w32};
ghost use Rattle.aes_chain.specs.State.{inv_mix_matrix};
ghost use Rattle.aes_chain.specs.Schedule.{added_word, expanded, key_words, next_word};
ghost use Rattle.aes_chain.specs.Cipher.{decrypted, encrypted};
ghost use Rattle.aes_chain.specs.Words.{IsExpanded, bytes_of, column_times, inv_key, keys_at, state_at, words_of};
ghost use Rattle.aes_chain.specs.Laws.{IsKey, IsKeyLen};

use crate::block::{WORDS, decrypt, encrypt, inv_mixed, substituted, word};
use crate::tables::{ROUND_CONSTANTS, s_box};
use std::marker::Model;

// The words of the longest key, whose expansion has one substitution more.
const LONGEST: usize = 8;

/// A key of AES, of 16, 24 or 32 bytes, with its round keys. In contracts it is the list of its bytes.
#[derive(Drop)]
pub struct Key {
    rounds: usize,
    words: [u32; WORDS],
    // The round keys of the equivalent inverse cipher (FIPS 197, 5.3.5).
    inverse_words: [u32; WORDS],
}

impl Model for Key {
    ghost Value = { List ℕ };

    ghost view = { λ k. bytes_of k.words (k.rounds - 6) };

    ghost invariant = { λ k. IsExpanded (bytes_of k.words (k.rounds - 6)) k.words k.inverse_words k.rounds };
}

impl Key {
    /// The key of these bytes, or `None` where they are not 16, 24 or 32.
    pub fn new(bytes: &[u8]) -> Option<Key>
        ensures permitted { IsSome result ↔ IsKeyLen (length bytes.now) }
        ensures bytes { IfSome result (λ k. k ≡ bytes.now) }
    {
        match bytes.len() {
            16 => Some(Key::of_words(bytes, 4)),
            24 => Some(Key::of_words(bytes, 6)),
            32 => Some(Key::of_words(bytes, 8)),
            _ => None,
        }
    }

    // The key of so many words.
    fn of_words(bytes: &[u8], key_len: usize) -> Key
        requires len { length bytes.now ≡ 4 * key_len }
        requires permitted { IsKeyLen (length bytes.now) }
        ensures { result ≡ bytes.now }
    {
        let first = first_words(bytes, key_len);
        let words = expansion(&first, key_len);
        let rounds = key_len + 6;
        let inverse_words = inverse_keys(&words, rounds);
        Key {
            rounds,
            words,
            inverse_words,
        }
    }

    /// A copy of the key. Takes no memory.
    pub fn copy(&self) -> Key
        ensures { result ≡ self.now }
    {
        Key {
            rounds: self.rounds,
            words: self.words,
            inverse_words: self.inverse_words,
        }
    }

    /// A key has 16, 24 or 32 bytes, as the laws of this crate ask.
    pub fn law_key(&self)
        ensures { IsKey self.now }
    {
        let _ = &self.rounds;
    }

    // The columns of a block, encrypted.
    pub(crate) fn encrypt_columns(&self, block: [u32; 4]) -> [u32; 4]
        ensures { state_at result 0 ≡ encrypted self.now (state_at block 0) }
    {
        encrypt(&self.words, self.rounds, block)
    }

    // The columns of a block, decrypted.
    pub(crate) fn decrypt_columns(&self, block: [u32; 4]) -> [u32; 4]
        ensures { state_at result 0 ≡ decrypted self.now (state_at block 0) }
    {
        decrypt(&self.inverse_words, self.rounds, block)
    }
}

// The words of a key, and room for the others.
fn first_words(bytes: &[u8], key_len: usize) -> [u32; WORDS]
    requires len { length bytes.now ≡ 4 * key_len }
    requires fits { key_len ≤ 8 }
    ensures { words_of result key_len ≡ key_words bytes.now key_len }
{
    let mut words = [0; WORDS];
    for i in 0..key_len {
        words[i] = word(bytes, 4 * i);
    }
    words
}

// The words of a key of `key_len` words, and all that follow from them.
fn expansion(first: &[u32; WORDS], key_len: usize) -> [u32; WORDS]
    requires some { 4 ≤ key_len }
    requires fits { key_len ≤ 8 }
    ensures kept { take key_len result ≡ take key_len first.now }
    ensures words { words_of result (4 * key_len + 28) ≡ expanded key_len (words_of first.now key_len) (3 * key_len + 28) }
{
    let mut words = *first;
    for i in key_len..4 * key_len + 28 {
        words[i] = words[i - key_len] ^ added_word(words[i - 1], i, key_len);
    }
    words
}

// What is added to the word `key_len` places before word i, from the word before it.
fn added_word(before: u32, i: usize, key_len: usize) -> u32
    requires some { 4 ≤ key_len }
    requires later { key_len ≤ i }
    requires fits { i < 4 * key_len + 28 }
    ensures { to_le_bytes w32 result ≡ added_word key_len i (to_le_bytes w32 before) }
{
    if i % key_len == 0 {
        let [a, b, c, d] = before.to_le_bytes();
        let constant = ROUND_CONSTANTS[i / key_len - 1];
        u32::from_le_bytes([s_box(b) ^ constant, s_box(c), s_box(d), s_box(a)])
    } else if key_len == LONGEST && i % key_len == 4 {
        substituted(before, before, before, before)
    } else {
        before
    }
}

// InvMixColumns of a round key's column.
fn inv_mixed_word(w: u32) -> u32
    ensures { to_le_bytes w32 result ≡ column_times inv_mix_matrix (byte_at 0 w) (byte_at 1 w) (byte_at 2 w) (byte_at 3 w) }
{
    let s = substituted(w, w, w, w);
    inv_mixed(s, s, s, s)
}

// The round keys of the equivalent inverse cipher.
fn inverse_keys(words: &[u32; WORDS], rounds: usize) -> [u32; WORDS]
    requires some { 1 ≤ rounds }
    requires fits { rounds ≤ 14 }
    ensures { (i : ℕ) → i ≤ rounds → state_at result (4 * i) ≡ inv_key rounds (keys_at words.now) i }
{
    let mut inverse = *words;
    for i in 4..4 * rounds {
        inverse[i] = inv_mixed_word(words[i]);
    }
    inverse
}
