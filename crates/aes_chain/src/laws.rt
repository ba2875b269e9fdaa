// The laws of the cipher and its chain. Each is a fact about the definitions, and does nothing when it
// is called.

ghost use Rattle.aes_chain.specs.Laws.{ChainDecryptionUndoesEncryption, ChainEncryptionUndoesDecryption, DecryptionUndoesEncryption, EncryptionUndoesDecryption};

/// A block that is encrypted and then decrypted under one key is as it was.
pub fn law_decrypted_encrypted()
    ensures { DecryptionUndoesEncryption }
{}

/// A block that is decrypted and then encrypted under one key is as it was.
pub fn law_encrypted_decrypted()
    ensures { EncryptionUndoesDecryption }
{}

/// A text of whole blocks that is encrypted and then decrypted under one key is as it was.
pub fn law_chain_decrypted_encrypted()
    ensures { ChainDecryptionUndoesEncryption }
{}

/// A text of whole blocks that is decrypted and then encrypted under one key is as it was.
pub fn law_chain_encrypted_decrypted()
    ensures { ChainEncryptionUndoesDecryption }
{}
