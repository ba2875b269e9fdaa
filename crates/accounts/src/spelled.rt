// What words of a setup text spell.
ghost use Rattle.std.specs.Prelude.{◌≡◌, ◌<◌, ◌≤◌, ℕ, IfSome};
ghost use Rattle.jiff_core.specs.Calendar.{IsWithin};
ghost use Rattle.arc_data.specs.Digits.{is_name};
ghost use Rattle.alarm_rules.specs.SetupWords.{account_named, key_spelled, minutes_spelled, zone_spelled, number_between};
ghost use Rattle.alarm_rules.specs.SetupWords.{is_dialled, is_phone, is_pin, word_that};

use aes_chain::Key;
use alarm_rules::{are_digits, is_account, is_name, is_pin};
use arc_data::Txt;
use arc_text::dec;
use civil_time::Zone;

/// The most bytes of a text that names a zone.
const LONGEST_ZONE: usize = 64;

/// The most bytes of a key (FIPS 197, 6.1).
const LONGEST_KEY: usize = 32;

/// The number of an account in capitals: 3 to 16 hexadecimal digits, in either case.
pub(crate) fn account(word: &[u8]) -> Option<Txt>
    ensures { result ≡ account_named word.now }
{
    if !is_account(word) {
        return None;
    }
    let number = Txt::of(word)?;
    Some(number.capitals())
}

/// The key that 32, 48 or 64 hexadecimal digits spell, in either case.
pub(crate) fn key(word: &[u8]) -> Option<Key>
    ensures { result ≡ key_spelled word.now }
{
    let mut bytes = [0; LONGEST_KEY];
    let bytes = bytes.get_mut(..word.len() / 2)?;
    hex::decode_to_slice(word, bytes).ok()?;
    Key::new(bytes)
}

/// The seconds of an interval, from 1 to 1,000,000.
pub(crate) fn seconds(word: &[u8]) -> Option<u64>
    ensures { result ≡ number_between 1 1_000_000 word.now }
{
    number_between(1, 1_000_000, word)
}

/// The minutes that local time is ahead of GMT, from -840 to 840.
pub(crate) fn minutes(word: &[u8]) -> Option<i16>
    ensures value { result ≡ minutes_spelled word.now }
    ensures near { IfSome result (IsWithin 840) }
{
    match word {
        [] => None,
        [b'-', digits @ ..] => Some(-(number_between(1, 840, digits)? as i16)),
        digits => Some(number_between(0, 840, digits)? as i16),
    }
}

/// The zone that a text of 1 to 64 bytes names. The inner option is none where the text is no rule.
pub(crate) fn zone(word: &[u8]) -> Option<Option<Zone>>
    ensures { result ≡ zone_spelled word.now }
{
    if word.is_empty() || word.len() > LONGEST_ZONE {
        return None;
    }
    Some(Zone::posix(word))
}

/// The number between two others, both included, whose decimal text the word is. None where it is the text of no such number. Words of
/// the command line are read by it too.
pub fn number_between(low: u64, high: u64, word: &[u8]) -> Option<u64>
    ensures value { result ≡ number_between low high word.now }
    ensures low { IfSome result (λ n. low ≤ n) }
    ensures high { IfSome result (λ n. n ≤ high) }
{
    let number = dec(word)?;
    if low <= number && number <= high {
        Some(number)
    } else {
        None
    }
}

/// A name of 1 to 16 letters, digits, dots, underscores and hyphens.
pub(crate) fn name(word: &[u8]) -> Option<Txt>
    ensures { result ≡ word_that is_name word.now }
{
    if is_name(word) { Txt::of(word) } else { None }
}

/// Whether it is a telephone number: 3 to 20 digits, before which a plus may stand.
pub(crate) fn is_phone(word: &[u8]) -> bool
    ensures { result ≡ is_phone word.now }
{
    match word {
        [b'+', digits @ ..] => are_dialled(digits),
        digits => are_dialled(digits),
    }
}

/// Whether these are the digits of a telephone number.
fn are_dialled(digits: &[u8]) -> bool
    ensures { result ≡ is_dialled digits.now }
{
    if digits.len() < 3 || digits.len() > 20 {
        return false;
    }
    are_digits(digits)
}

/// The 4 to 8 digits that an operator logs in with.
pub(crate) fn pin(word: &[u8]) -> Option<Txt>
    ensures { result ≡ word_that is_pin word.now }
{
    if is_pin(word) { Txt::of(word) } else { None }
}
