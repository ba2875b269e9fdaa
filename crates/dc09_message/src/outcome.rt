// What a frame comes to.
use arc_data::{Message, Txt};
use dc09_frame::Header;

/// Why a frame is answered by DUH, "unable to process" (DC-09).
#[derive(Clone, Copy, Debug, PartialEq, Eq)]
pub enum Why {
    /// The token is none that is read.
    UnknownToken,
    /// The account is not in the setup.
    UnknownAccount,
    /// The message is plain, and its account has a key.
    PlainButKeyed,
    /// The message is sealed, and its account has no key.
    SealedButKeyless,
    /// What follows the header of a sealed message is no run of cipher digits.
    NotCipher,
    /// The decrypted text has no `|`.
    NoBar,
    /// The decrypted text does not end with a readable stamp.
    NoStamp,
    /// The blocks, an account in them, the tail, or the data cannot be read.
    BadBlocks,
}

/// What an undamaged frame comes to.
#[derive(Drop)]
pub enum Verdict {
    /// The header cannot be read: there is no answer.
    Silence,
    /// The stamp of a sealed message is not fresh: it is answered by NAK.
    Nak,
    /// It is answered by DUH.
    Duh(Header, Why),
    /// A heartbeat of a known account, which is in capitals.
    Beat(Header, Txt),
    /// A numbered message of a known account.
    Numbered(Header, Message),
}
