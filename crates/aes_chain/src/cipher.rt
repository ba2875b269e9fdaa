// Blocks, and texts of whole blocks, in place.

ghost use Rattle.std.specs.Prelude.{◌≡◌, ◌%◌, length};
ghost use Rattle.aes_chain.specs.Cipher.{decrypted, encrypted};
ghost use Rattle.aes_chain.specs.Chain.{chain_decrypted, chain_encrypted};

use crate::block::{add, load, store};
use crate::key::Key;

const BLOCK_LEN: usize = 16;

/// Encrypts one block in place (FIPS 197, 5.1).
pub fn encrypt_block(key: &Key, block: &mut [u8; 16])
    ensures { block.new ≡ encrypted key.now block.old }
{
    let columns = key.encrypt_columns(load(block));
    store(columns, block);
}

/// Decrypts one block in place (FIPS 197, 5.3).
pub fn decrypt_block(key: &Key, block: &mut [u8; 16])
    ensures { block.new ≡ decrypted key.now block.old }
{
    let columns = key.decrypt_columns(load(block));
    store(columns, block);
}

/// Encrypts a text of whole blocks in place: each block is added to the cipher block before it, the
/// first to sixteen zero bytes, and then encrypted.
pub fn chain_encrypt(key: &Key, text: &mut [u8])
    requires { length text.old % 16 ≡ 0 }
    ensures { text.new ≡ chain_encrypted key.now text.old }
{
    let mut vector = [0; 4];
    for i in 0..text.len() / BLOCK_LEN {
        let block = &mut text[BLOCK_LEN * i..BLOCK_LEN * i + BLOCK_LEN];
        let plain = load(block);
        let cipher = key.encrypt_columns(add(vector, plain));
        store(cipher, block);
        vector = cipher;
    }
}

/// Decrypts a text of whole blocks in place, as [`chain_encrypt`] wrote it.
pub fn chain_decrypt(key: &Key, text: &mut [u8])
    requires { length text.old % 16 ≡ 0 }
    ensures { text.new ≡ chain_decrypted key.now text.old }
{
    let mut vector = [0; 4];
    for i in 0..text.len() / BLOCK_LEN {
        let block = &mut text[BLOCK_LEN * i..BLOCK_LEN * i + BLOCK_LEN];
        let next = load(block);
        let plain = add(vector, key.decrypt_columns(next));
        store(plain, block);
        vector = next;
    }
}
