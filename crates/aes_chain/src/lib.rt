//! The block cipher AES (FIPS 197) for keys of 16, 24 and 32 bytes, and its chain: the cipher block
//! chaining of whole blocks, with sixteen zero bytes as the first vector.
//!
//! [`Key::new`] expands a key once. [`encrypt_block`] and [`decrypt_block`] work on one block in place,
//! [`chain_encrypt`] and [`chain_decrypt`] on a text of whole blocks. None of them takes memory. Their
//! contracts cite the definitions of `specs/`, which are the standard's, and the laws say that each of
//! encryption and decryption undoes the other.
//!
//! A [`Key`] has neither `Debug` nor `Display`, so nothing prints it.
#![tactic(auto)]

mod block;
mod cipher;
mod key;
mod laws;
mod tables;

pub use crate::cipher::{chain_decrypt, chain_encrypt, decrypt_block, encrypt_block};
pub use crate::key::Key;
pub use crate::laws::{
    law_chain_decrypted_encrypted, law_chain_encrypted_decrypted, law_decrypted_encrypted,
    law_encrypted_decrypted,
};
