// `incident NUMBER CLASS ACCOUNT code CODE opened MOMENT signals COUNT restored yes holder NAME next STEP via LINE`
ghost use Rattle.std.specs.Prelude.{◌≡◌};
ghost use Rattle.std.specs.Option.{option_map};
ghost use Rattle.alarm_rules.specs.SetupWords.{word_that};
ghost use Rattle.arc_data.specs.Digits.{is_account};
ghost use Rattle.desk_said.specs.Lines.{labelled, opened_first, shown_line, since_line, subject_first, subject_of, view_of};
ghost use Rattle.desk_said.specs.Words.{holder_or, line_or_dash, yes_or_no};

use crate::forms::{name, step_or_none};
use crate::names::{class, count};
use crate::said::Said;
use alarm_rules::{Words, is_account};
use arc_data::{Class, Txt, View};
use desk_wire::number;

/// Which incident an answer is about.
#[derive(Clone, Copy)]
pub(crate) struct Subject {
    pub number: u64,
    pub class: Class,
    pub account: Txt,
}

/// What an incident is, and when it opened.
#[derive(Clone, Copy)]
pub(crate) struct Opened {
    pub subject: Subject,
    pub code: Txt,
    pub at: u64,
}

fn account(word: &[u8]) -> Option<Txt>
    ensures { result ≡ word_that is_account word.now }
{
    if is_account(word) {
        Txt::of(word)
    } else {
        None
    }
}

/// `NUMBER CLASS ACCOUNT`, by its words.
pub(crate) fn subject_by(digits: &[u8], name: &[u8], site: &[u8]) -> Option<Subject>
    ensures { result ≡ subject_of digits.now name.now site.now }
{
    match (number(digits), class(name), account(site)) {
        (Some(number), Some(class), Some(account)) => Some(Subject {
            number,
            class,
            account,
        }),
        _ => None,
    }
}

fn subject_first(words: &mut Words) -> Option<Subject>
    ensures { option_map (λ s. (s, words.new)) result ≡ subject_first words.old }
{
    let (Some(digits), Some(name), Some(account)) = (words.next(), words.next(), words.next())
    else {
        return None;
    };
    subject_by(digits, name, account)
}

// The word behind a label that comes first.
fn labelled<'a>(label: &[u8], words: &mut Words<'a>) -> Option<&'a [u8]>
    ensures { option_map (λ value. (value.now, words.new)) result ≡ labelled label.now words.old }
{
    let (Some(first), Some(value)) = (words.next(), words.next()) else {
        return None;
    };
    if first == label { Some(value) } else { None }
}

fn opened_first(words: &mut Words) -> Option<Opened>
    ensures { option_map (λ o. (o, words.new)) result ≡ opened_first words.old }
{
    let Some(subject) = subject_first(words) else {
        return None;
    };
    let Some(code) = labelled(b"code", words) else {
        return None;
    };
    let Some(moment) = labelled(b"opened", words) else {
        return None;
    };
    match (Txt::of(code), count(moment)) {
        (Some(code), Some(at)) => Some(Opened { subject, code, at }),
        _ => None,
    }
}

fn yes_or_no(word: &[u8]) -> Option<bool>
    ensures { result ≡ yes_or_no word.now }
{
    if word == b"yes".as_slice() {
        Some(true)
    } else if word == b"no".as_slice() {
        Some(false)
    } else {
        None
    }
}

/// An operator, or that nobody is, which this word says.
pub(crate) fn holder_or(nobody: &[u8], word: &[u8]) -> Option<Option<Txt>>
    ensures { result ≡ holder_or nobody.now word.now }
{
    if word == nobody {
        return Some(None);
    }
    match name(word) {
        Some(name) => Some(Some(name)),
        None => None,
    }
}

// The name of a line, or that none is named.
fn line_or_dash(word: &[u8]) -> Option<Txt>
    ensures { result ≡ line_or_dash word.now }
{
    if word == b"-".as_slice() {
        Some(Txt::empty())
    } else {
        name(word)
    }
}

fn since(opened: &Opened, words: &mut Words) -> Option<Said>
    ensures { result ≡ since_line opened.now words.old }
{
    let Some(signals) = labelled(b"signals", words) else {
        return None;
    };
    let Some(restored) = labelled(b"restored", words) else {
        return None;
    };
    let Some(holder) = labelled(b"holder", words) else {
        return None;
    };
    let Some(next) = labelled(b"next", words) else {
        return None;
    };
    let Some(via) = labelled(b"via", words) else {
        return None;
    };
    if !words.is_empty() {
        return None;
    }
    viewed(opened, signals, restored, holder, next, via)
}

fn viewed(
    opened: &Opened,
    signals: &[u8],
    restored: &[u8],
    holder: &[u8],
    next: &[u8],
    via: &[u8],
) -> Option<Said>
    ensures { result ≡ view_of opened.now signals.now restored.now holder.now next.now via.now }
{
    match (
        count(signals),
        yes_or_no(restored),
        holder_or(b"none", holder),
        step_or_none(next),
        line_or_dash(via),
    ) {
        (Some(signals), Some(restored), Some(holder), Some(expected), Some(via)) => {
            Some(Said::Shown(View {
                number: opened.subject.number,
                class: opened.subject.class,
                account: opened.subject.account,
                code: opened.code,
                at: opened.at,
                signals,
                restored,
                holder,
                expected,
                via,
            }))
        }
        _ => None,
    }
}

/// An incident that is shown.
pub(crate) fn shown(words: &mut Words) -> Option<Said>
    ensures { result ≡ shown_line words.old }
{
    match opened_first(words) {
        Some(opened) => since(&opened, words),
        None => None,
    }
}
