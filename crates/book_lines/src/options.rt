// What a book is asked for, in words.
ghost use Rattle.std.specs.Prelude.{◌≡◌, length, IfSome};
ghost use Rattle.arc_data.specs.Digits.{is_name};
ghost use Rattle.arc_data.specs.Moments.{IsMoment};
ghost use Rattle.alarm_rules.specs.SetupWords.{account_named, word_that};
ghost use Rattle.book_lines.specs.Asked.{AreInRange, IsPlace, clock_ahead, clock_ruled, from_account, from_incident, from_offset, from_operator, from_since, from_tabs, from_until, from_zone};
ghost use Rattle.book_lines.specs.Asked.{end_of_day, moment_at, moment_named, number_named, offset_named, options_of, place_named, plain};
ghost use Rattle.book_lines.specs.Clocks.{IsNear, IsSmall};

use crate::clock::{Clock, Offset};
use crate::word::Word;
use accounts::number_between;
use alarm_rules::{is_account, is_name};
use arc_data::Txt;
use civil_time::{Zone, read_stamp};

/// Where a book begins or ends.
#[derive(Clone, Copy)]
pub enum Place {
    /// The record of this number.
    Number(u64),
    /// What the book's clock shows, in seconds from 1970 on.
    Moment(u64),
}

/// Which records a book has, those that all of this holds of, and how it tells them.
#[derive(Drop)]
pub struct Options {
    pub since: Option<Place>,
    pub until: Option<Place>,
    pub account: Option<Txt>,
    pub incident: Option<u64>,
    pub operator: Option<Txt>,
    pub clock: Clock,
    /// In fields, for other programs.
    pub tabs: bool,
}

impl Options {
    /// What these words ask for: in this order, and each only where it is wanted, `since PLACE`, `until PLACE`, `account NUMBER`,
    /// `incident NUMBER`, `operator NAME`, `offset MINUTES` or `zone RULE`, and `tabs`. None where they are no such words.
    pub fn read(words: &[Word]) -> Option<Options>
        ensures asked { result ≡ options_of words.now }
        ensures range { IfSome result AreInRange }
    {
        from_since(words)
    }
}

// What is asked for from `since PLACE` on.
#[tactic(auto, unfolding(crate::specs::Asked::from_since))]
fn from_since(words: &[Word]) -> Option<Options>
    ensures asked { result ≡ from_since words.now }
    ensures range { IfSome result AreInRange }
{
    match words {
        [name, value, rest @ ..] if name.bytes() == b"since".as_slice() => {
            let place = place_named(false, value.bytes())?;
            let mut options = from_until(rest)?;
            options.since = Some(place);
            Some(options)
        }
        _ => from_until(words),
    }
}

// What is asked for from `until PLACE` on.
#[tactic(auto, unfolding(crate::specs::Asked::from_until))]
fn from_until(words: &[Word]) -> Option<Options>
    ensures asked { result ≡ from_until words.now }
    ensures range { IfSome result AreInRange }
{
    match words {
        [name, value, rest @ ..] if name.bytes() == b"until".as_slice() => {
            let place = place_named(true, value.bytes())?;
            let mut options = from_account(rest)?;
            options.until = Some(place);
            Some(options)
        }
        _ => from_account(words),
    }
}

// What is asked for from `account NUMBER` on.
#[tactic(auto, unfolding(crate::specs::Asked::from_account))]
fn from_account(words: &[Word]) -> Option<Options>
    ensures asked { result ≡ from_account words.now }
    ensures range { IfSome result AreInRange }
{
    match words {
        [name, value, rest @ ..] if name.bytes() == b"account".as_slice() => {
            let account = account_named(value.bytes())?;
            let mut options = from_incident(rest)?;
            options.account = Some(account);
            Some(options)
        }
        _ => from_incident(words),
    }
}

// What is asked for from `incident NUMBER` on.
#[tactic(auto, unfolding(crate::specs::Asked::from_incident))]
fn from_incident(words: &[Word]) -> Option<Options>
    ensures asked { result ≡ from_incident words.now }
    ensures range { IfSome result AreInRange }
{
    match words {
        [name, value, rest @ ..] if name.bytes() == b"incident".as_slice() => {
            let number = number_named(value.bytes())?;
            let mut options = from_operator(rest)?;
            options.incident = Some(number);
            Some(options)
        }
        _ => from_operator(words),
    }
}

// What is asked for from `operator NAME` on.
#[tactic(auto, unfolding(crate::specs::Asked::from_operator))]
fn from_operator(words: &[Word]) -> Option<Options>
    ensures asked { result ≡ from_operator words.now }
    ensures range { IfSome result AreInRange }
{
    match words {
        [name, value, rest @ ..] if name.bytes() == b"operator".as_slice() => {
            let operator = operator_named(value.bytes())?;
            let mut options = from_offset(rest)?;
            options.operator = Some(operator);
            Some(options)
        }
        _ => from_offset(words),
    }
}

// What is asked for from `offset MINUTES` or `zone RULE` on.
#[tactic(auto, unfolding(crate::specs::Asked::from_offset))]
fn from_offset(words: &[Word]) -> Option<Options>
    ensures asked { result ≡ from_offset words.now }
    ensures range { IfSome result AreInRange }
{
    match words {
        [name, value, rest @ ..] if name.bytes() == b"offset".as_slice() => {
            let clock = clock_ahead(value.bytes())?;
            let mut options = from_tabs(rest)?;
            options.clock = clock;
            Some(options)
        }
        _ => from_zone(words),
    }
}

// What is asked for from `zone RULE` on.
#[tactic(auto, unfolding(crate::specs::Asked::from_zone))]
fn from_zone(words: &[Word]) -> Option<Options>
    ensures asked { result ≡ from_zone words.now }
    ensures range { IfSome result AreInRange }
{
    match words {
        [name, value, rest @ ..] if name.bytes() == b"zone".as_slice() => {
            let clock = clock_ruled(value.bytes())?;
            let mut options = from_tabs(rest)?;
            options.clock = clock;
            Some(options)
        }
        _ => from_tabs(words),
    }
}

// What is asked for by `tabs` or no word.
#[tactic(auto, unfolding(crate::specs::Asked::from_tabs))]
fn from_tabs(words: &[Word]) -> Option<Options>
    ensures asked { result ≡ from_tabs words.now }
    ensures range { IfSome result AreInRange }
{
    match words {
        [] => Some(plain(false)),
        [word] if word.bytes() == b"tabs".as_slice() => Some(plain(true)),
        _ => None,
    }
}

// All records, by GMT.
fn plain(tabs: bool) -> Options
    ensures all { result ≡ plain tabs }
    ensures range { AreInRange result }
{
    Options {
        since: None,
        until: None,
        account: None,
        incident: None,
        operator: None,
        clock: Clock::Fixed(Offset::Gmt),
        tabs,
    }
}

// The account, in capitals.
fn account_named(word: &[u8]) -> Option<Txt>
    ensures { result ≡ account_named word.now }
{
    if !is_account(word) {
        return None;
    }
    let number = Txt::of(word)?;
    Some(number.capitals())
}

// The operator's name.
fn operator_named(word: &[u8]) -> Option<Txt>
    ensures { result ≡ word_that is_name word.now }
{
    if is_name(word) { Txt::of(word) } else { None }
}

// The number of a record or an incident.
fn number_named(word: &[u8]) -> Option<u64>
    ensures { result ≡ number_named word.now }
{
    number_between(1, u64::MAX, word)
}

// The clock that is so many minutes ahead of GMT.
fn clock_ahead(word: &[u8]) -> Option<Clock>
    ensures clock { result ≡ clock_ahead word.now }
    ensures near { IfSome result IsNear }
{
    Some(Clock::Fixed(offset_named(word)?))
}

// The offset of so many minutes.
fn offset_named(word: &[u8]) -> Option<Offset>
    ensures offset { result ≡ offset_named word.now }
    ensures small { IfSome result IsSmall }
{
    match word {
        [] => None,
        b"0" => Some(Offset::Gmt),
        [b'-', digits @ ..] => Some(Offset::Behind(number_between(1, 840, digits)? as u16)),
        digits => Some(Offset::Ahead(number_between(1, 840, digits)? as u16)),
    }
}

// The clock by the rule that a text of 1 to 64 bytes is, as a setup names zones.
fn clock_ruled(word: &[u8]) -> Option<Clock>
    ensures clock { result ≡ clock_ruled word.now }
    ensures near { IfSome result IsNear }
{
    if word.is_empty() || word.len() > 64 {
        return None;
    }
    Some(Clock::Ruled(Zone::posix(word)?))
}

// The place of a number or a moment; of a date that stands alone its first second, or the last one.
fn place_named(last: bool, word: &[u8]) -> Option<Place>
    ensures place { result ≡ place_named last word.now }
    ensures range { IfSome result IsPlace }
{
    if let Some(number) = number_named(word) {
        return Some(Place::Number(number));
    }
    Some(Place::Moment(moment_named(last, word)?))
}

// The moment of a date, a `T` and a time, or of a date alone.
fn moment_named(last: bool, word: &[u8]) -> Option<u64>
    ensures moment { result ≡ moment_named last word.now }
    ensures range { IfSome result IsMoment }
{
    if word.len() == 10 {
        return moment_at(word, end_of_day(last));
    }
    if word.len() != 19 {
        return None;
    }
    if word[10] != b'T' {
        return None;
    }
    moment_at(&word[..10], &word[11..])
}

// The time of the first second of a day, or of its last.
fn end_of_day(last: bool) -> &'static [u8]
    ensures time { result.now ≡ end_of_day last }
    ensures size { length result.now ≡ 8 }
{
    if last { b"23:59:59" } else { b"00:00:00" }
}

// The moment of a date and a time.
#[tactic(auto, unfolding(crate::specs::Asked::moment_at))]
fn moment_at(date: &[u8], time: &[u8]) -> Option<u64>
    requires date { length date.now ≡ 10 }
    requires time { length time.now ≡ 8 }
    ensures moment { result ≡ moment_at date.now time.now }
    ensures range { IfSome result IsMoment }
{
    if date[4] != b'-' {
        return None;
    }
    read_stamp(&[
        b'_', time[0], time[1], time[2], time[3], time[4], time[5], time[6], time[7], b',',
        date[5], date[6], date[7], date[8], date[9], b'-', date[0], date[1], date[2], date[3],
    ])
}
