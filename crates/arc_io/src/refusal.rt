// Why a message was refused.

/// Why a panel's message was refused (DC-09), as those who set panels up are told.
#[derive(Clone, Copy, Debug, PartialEq, Eq)]
pub enum Refusal {
    /// The token is none that is read.
    UnknownToken,
    /// The setup has no such account.
    UnknownAccount,
    /// The message is plain, and its account has a key.
    PlainButKeyed,
    /// The message is sealed, and its account has no key.
    SealedButKeyless,
    /// What follows the header of a sealed message is no run of cipher digits.
    NotCipher,
    /// What was decrypted is no text of a message: the panel has another key, or what it sealed is broken.
    WrongKey,
    /// The stamp of a sealed message is not fresh.
    StaleStamp,
    /// The blocks, an account in them, the tail, or the data cannot be read.
    UnreadableData,
}
