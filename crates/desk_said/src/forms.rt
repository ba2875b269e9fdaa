// The forms of a desk's answers, by the words behind the first one.
ghost use Rattle.std.specs.Prelude.{◌≡◌};
ghost use Rattle.std.specs.Option.{option_map};
ghost use Rattle.arc_data.specs.Digits.{is_name};
ghost use Rattle.alarm_rules.specs.SetupWords.{word_that};
ghost use Rattle.desk_wire.specs.Commands.{one_number};
ghost use Rattle.desk_said.specs.Lines.{alone, busy_line, claimed_line, expected_line, held_line, missing_line, none_line, not_line, numbered};
ghost use Rattle.desk_said.specs.Lines.{name_last, one_word, recorded_line, welcome_line};
ghost use Rattle.desk_said.specs.Words.{step_or_none};
ghost use Rattle.desk_said.specs.declared.said.Said.TheVariants.{BusyWith, Closed, NotOpen, NotYours, Released};

use crate::names::count;
use crate::said::Said;
use crate::shown::subject_by;
use alarm_rules::{Words, is_name};
use arc_data::{Step, Txt};
use desk_wire::{number, step};

/// An answer of one word.
pub(crate) fn alone(said: Said, words: &mut Words) -> Option<Said>
    ensures { result ≡ alone said words.old }
{
    if words.is_empty() { Some(said) } else { None }
}

// The last word.
fn last<'a>(words: &mut Words<'a>) -> Option<&'a [u8]>
    ensures { option_map (λ word. word.now) result ≡ one_word words.old }
{
    match (words.next(), words.is_empty()) {
        (Some(word), true) => Some(word),
        _ => None,
    }
}

// A number, and nothing behind it.
fn last_number(words: &mut Words) -> Option<u64>
    ensures { result ≡ one_number words.old }
{
    match last(words) {
        Some(word) => number(word),
        None => None,
    }
}

/// The name of an operator.
pub(crate) fn name(word: &[u8]) -> Option<Txt>
    ensures { result ≡ word_that is_name word.now }
{
    if is_name(word) { Txt::of(word) } else { None }
}

/// A step, or that there is none.
pub(crate) fn step_or_none(word: &[u8]) -> Option<Option<Step>>
    ensures { result ≡ step_or_none word.now }
{
    if word == b"none".as_slice() {
        return Some(None);
    }
    match step(word) {
        Some(step) => Some(Some(step)),
        None => None,
    }
}

/// `released NUMBER`
pub(crate) fn released(words: &mut Words) -> Option<Said>
    ensures { result ≡ numbered Released words.old }
{
    match last_number(words) {
        Some(number) => Some(Said::Released { number }),
        None => None,
    }
}

/// `closed NUMBER`
pub(crate) fn closed(words: &mut Words) -> Option<Said>
    ensures { result ≡ numbered Closed words.old }
{
    match last_number(words) {
        Some(number) => Some(Said::Closed { number }),
        None => None,
    }
}

fn not_open(words: &mut Words) -> Option<Said>
    ensures { result ≡ numbered NotOpen words.old }
{
    match last_number(words) {
        Some(number) => Some(Said::NotOpen { number }),
        None => None,
    }
}

fn not_yours(words: &mut Words) -> Option<Said>
    ensures { result ≡ numbered NotYours words.old }
{
    match last_number(words) {
        Some(number) => Some(Said::NotYours { number }),
        None => None,
    }
}

fn busy_with(words: &mut Words) -> Option<Said>
    ensures { result ≡ numbered BusyWith words.old }
{
    match last_number(words) {
        Some(number) => Some(Said::BusyWith { number }),
        None => None,
    }
}

/// `not open NUMBER` or `not yours NUMBER`
pub(crate) fn not_so(words: &mut Words) -> Option<Said>
    ensures { result ≡ not_line words.old }
{
    match words.next() {
        Some(word) if word == b"open".as_slice() => not_open(words),
        Some(word) if word == b"yours".as_slice() => not_yours(words),
        _ => None,
    }
}

/// `busy with NUMBER`
pub(crate) fn busy(words: &mut Words) -> Option<Said>
    ensures { result ≡ busy_line words.old }
{
    match words.next() {
        Some(word) if word == b"with".as_slice() => busy_with(words),
        _ => None,
    }
}

fn holder(words: &mut Words) -> Option<Txt>
    ensures { result ≡ name_last words.old }
{
    match last(words) {
        Some(word) => name(word),
        None => None,
    }
}

/// `held by NAME`
pub(crate) fn held(words: &mut Words) -> Option<Said>
    ensures { result ≡ held_line words.old }
{
    match words.next() {
        Some(word) if word == b"by".as_slice() => match holder(words) {
            Some(operator) => Some(Said::HeldBy { operator }),
            None => None,
        },
        _ => None,
    }
}

/// `none waiting`
pub(crate) fn none_waiting(words: &mut Words) -> Option<Said>
    ensures { result ≡ none_line words.old }
{
    match words.next() {
        Some(word) if word == b"waiting".as_slice() => alone(Said::NoneWaiting, words),
        _ => None,
    }
}

/// `ok NAME`
pub(crate) fn welcome(words: &mut Words) -> Option<Said>
    ensures { result ≡ welcome_line words.old }
{
    match holder(words) {
        Some(name) => Some(Said::Welcome { name }),
        None => None,
    }
}

/// `expected STEP` or `expected none`
pub(crate) fn expected(words: &mut Words) -> Option<Said>
    ensures { result ≡ expected_line words.old }
{
    match last(words) {
        Some(word) => match step_or_none(word) {
            Some(step) => Some(Said::Expected { step }),
            None => None,
        },
        None => None,
    }
}

/// `missing STEP`
pub(crate) fn missing(words: &mut Words) -> Option<Said>
    ensures { result ≡ missing_line words.old }
{
    match last(words) {
        Some(word) => match step(word) {
            Some(step) => Some(Said::Missing { step }),
            None => None,
        },
        None => None,
    }
}

/// `recorded NUMBER left COUNT`
pub(crate) fn recorded(words: &mut Words) -> Option<Said>
    ensures { result ≡ recorded_line words.old }
{
    let (Some(digits), Some(label), Some(rest), true) = (
        words.next(),
        words.next(),
        words.next(),
        words.is_empty(),
    ) else {
        return None;
    };
    match (number(digits), count(rest)) {
        (Some(number), Some(left)) if label == b"left".as_slice() => {
            Some(Said::Recorded { number, left })
        }
        _ => None,
    }
}

/// `claimed NUMBER CLASS ACCOUNT`
pub(crate) fn claimed(words: &mut Words) -> Option<Said>
    ensures { result ≡ claimed_line words.old }
{
    let (Some(digits), Some(class), Some(account), true) = (
        words.next(),
        words.next(),
        words.next(),
        words.is_empty(),
    ) else {
        return None;
    };
    match subject_by(digits, class, account) {
        Some(subject) => Some(Said::Claimed {
            number: subject.number,
            class: subject.class,
            account: subject.account,
        }),
        None => None,
    }
}
