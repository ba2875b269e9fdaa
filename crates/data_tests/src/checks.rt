// What the tests compare and read by. Each is a call, which costs the prover a part of what the same words cost where they stand.
use arc_data::{Class, Kind, Txt};
use std::process::Abort;

/// It is so. The words say what.
pub(crate) fn holds(rt: &impl Abort, fact: bool, what: &str) {
    assert!(rt; fact, "{what}");
}

/// The two numbers are equal.
pub(crate) fn same(rt: &impl Abort, got: u64, want: u64, what: &str) {
    assert_eq!(rt; got, want, "{what}");
}

/// The two are the same number, or both none.
pub(crate) fn same_found(rt: &impl Abort, got: Option<u64>, want: Option<u64>, what: &str) {
    assert_eq!(rt; got, want, "{what}");
}

/// The two are the same bytes.
pub(crate) fn same_bytes(rt: &impl Abort, got: &[u8], want: &[u8], what: &str) {
    assert_eq!(rt; got, want, "{what}");
}

/// The two are the same text.
pub(crate) fn same_text(rt: &impl Abort, got: &str, want: &str, what: &str) {
    assert_eq!(rt; got, want, "{what}");
}

/// The two sides of the first such mark in a row.
pub(crate) fn cut<'a>(rt: &impl Abort, row: &'a str, mark: char) -> (&'a str, &'a str) {
    row.split_once(mark).expect(rt, "a row with its mark")
}

/// The number that decimal digits spell.
pub(crate) fn number(rt: &impl Abort, digits: &str) -> u64 {
    digits.parse().expect(rt, "a number")
}

/// The same of a number that may be below zero.
pub(crate) fn integer(rt: &impl Abort, digits: &str) -> i64 {
    digits.parse().expect(rt, "an integer")
}

/// The number that decimal digits spell, or none for `-`.
pub(crate) fn found(rt: &impl Abort, word: &str) -> Option<u64> {
    if word == "-" {
        None
    } else {
        Some(number(rt, word))
    }
}

/// The text of at most 32 bytes.
pub(crate) fn short(rt: &impl Abort, text: &str) -> Txt {
    Txt::of(text.as_bytes()).expect(rt, "at most 32 bytes")
}

/// Whether the words name this class and kind.
pub(crate) fn is_named(words: &str, class: Class, kind: Kind) -> bool {
    let word = match kind {
        Kind::New => "new",
        Kind::Again => "again",
        Kind::Restore => "restore",
        Kind::Opening => "opening",
        Kind::Closing => "closing",
        Kind::LogOnly => "log",
    };
    words.split_once(' ') == Some((class.name(), word))
}
