// A line of the desk.
ghost use Rattle.std.specs.Prelude.{◌≡◌};
ghost use Rattle.desk_said.specs.Lines.{said_of, said_by, said_by_words, said_shortly, said_plainly};

use crate::forms::{
    alone, busy, claimed, closed, expected, held, missing, none_waiting, not_so, recorded,
    released, welcome,
};
use crate::listing::listed;
use crate::said::Said;
use crate::shown::shown;
use alarm_rules::Words;

/// What a line of the desk says, without its end. It takes no memory.
#[tactic(auto, unfolding(crate::specs::Lines::said_of))]
pub fn read(line: &[u8]) -> Said
    ensures { result ≡ said_of line.now }
{
    let mut words = Words::of(line);
    match by_words(&mut words) {
        Some(said) => said,
        None => Said::Strange,
    }
}

fn by_words(words: &mut Words) -> Option<Said>
    ensures { result ≡ said_by_words words.old }
{
    match words.next() {
        Some(first) => by_first(first, words),
        None => None,
    }
}

// By the first word, the forms that come often first.
fn by_first(first: &[u8], words: &mut Words) -> Option<Said>
    ensures { result ≡ said_by first.now words.old }
{
    if first == b"list".as_slice() {
        listed(words)
    } else if first == b"incident".as_slice() {
        shown(words)
    } else if first == b"claimed".as_slice() {
        claimed(words)
    } else if first == b"recorded".as_slice() {
        recorded(words)
    } else if first == b"expected".as_slice() {
        expected(words)
    } else if first == b"missing".as_slice() {
        missing(words)
    } else {
        shortly(first, words)
    }
}

// The forms of a number or a name.
fn shortly(first: &[u8], words: &mut Words) -> Option<Said>
    ensures { result ≡ said_shortly first.now words.old }
{
    if first == b"released".as_slice() {
        released(words)
    } else if first == b"closed".as_slice() {
        closed(words)
    } else if first == b"not".as_slice() {
        not_so(words)
    } else if first == b"busy".as_slice() {
        busy(words)
    } else if first == b"held".as_slice() {
        held(words)
    } else {
        plainly(first, words)
    }
}

// The forms of words alone.
fn plainly(first: &[u8], words: &mut Words) -> Option<Said>
    ensures { result ≡ said_plainly first.now words.old }
{
    if first == b"ok".as_slice() {
        welcome(words)
    } else if first == b"none".as_slice() {
        none_waiting(words)
    } else if first == b"denied".as_slice() {
        alone(Said::Denied, words)
    } else if first == b"what".as_slice() {
        alone(Said::What, words)
    } else if first == b"bye".as_slice() {
        alone(Said::Bye, words)
    } else if first == b"unknown".as_slice() {
        alone(Said::Unknown, words)
    } else {
        None
    }
}
