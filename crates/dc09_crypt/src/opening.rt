// What the digits of a sealed message open to.
ghost use Rattle.std.specs.Prelude.{◌≡◌, ◌<◌, ◌≤◌, ◌+◌, length, IfSome};
ghost use Rattle.std.specs.List.{position};
ghost use Rattle.civil_time.specs.Stamp.{IsMoment};
ghost use Rattle.dc09_crypt.specs.Sealed.{is_bar, stamp_behind, opened_at, LiesIn};

use civil_time::read_stamp;

/// The bytes of a stamp.
const STAMP_LEN: usize = 20;

/// What the digits after a sealed message's header are.
#[derive(Clone, Copy, Debug, PartialEq, Eq)]
pub enum Opening {
    /// They are no hexadecimal digits, or not a multiple of 32 of them that is at least 32.
    NotCipher,
    /// The decrypted text has no `|`.
    NoBar,
    /// The bytes behind the first `|` do not end with a readable stamp.
    NoStamp,
    /// The decrypted text. Its rest goes from `from` to `to`; `stamp` is in seconds since 1970.
    Text { from: usize, to: usize, stamp: u64 },
}

impl Opening {
    // What a decrypted text is: its pad ends at the first bar.
    pub(crate) fn of_text(text: &[u8]) -> Opening
        ensures value { result ≡ opened_at text.now (position is_bar text.now) }
        ensures within { LiesIn result text.now }
    {
        let Some(bar) = first_bar(text) else {
            return Opening::NoBar;
        };
        let from = bar + 1;
        match stamp_behind(text, from) {
            Some(stamp) => Opening::Text {
                from,
                to: text.len() - STAMP_LEN,
                stamp,
            },
            None => Opening::NoStamp,
        }
    }
}

// The place of the first bar.
fn first_bar(text: &[u8]) -> Option<usize>
    ensures value { result ≡ position is_bar text.now }
    ensures within { IfSome result (λ k. k < length text.now) }
{
    text.iter().position(|byte| *byte == b'|')
}

// The moment of the stamp that ends the bytes from a place on.
fn stamp_behind(text: &[u8], from: usize) -> Option<u64>
    requires { from ≤ length text.now }
    ensures value { result ≡ stamp_behind text.now from }
    ensures within { IfSome result (λ t. from + 20 ≤ length text.now) }
    ensures moment { IfSome result (λ t. IsMoment t) }
{
    if text.len() - from < STAMP_LEN {
        return None;
    }
    read_stamp(&text[text.len() - STAMP_LEN..])
}
