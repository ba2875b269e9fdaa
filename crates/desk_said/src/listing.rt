// `list COUNT`, and of each incident `NUMBER/CLASS/ACCOUNT/HOLDER`
ghost use Rattle.std.specs.Prelude.{◌≡◌, ◌==◌};
ghost use Rattle.std.specs.List.{position};
ghost use Rattle.std.specs.Option.{option_map};
ghost use Rattle.desk_said.specs.Lines.{listed_line, part_first, row_spelled, rows_spelled};

use crate::names::count;
use crate::rows::Rows;
use crate::said::Said;
use crate::shown::{holder_or, subject_by};
use alarm_rules::Words;
use arc_data::Row;

/// Where the first slash stands.
fn slash(text: &[u8]) -> Option<usize>
    ensures { result ≡ position (λ b. b == 47) text.now }
{
    text.iter().position(|byte| *byte == b'/')
}

// What stands before the first slash, and what behind it.
fn part(text: &[u8]) -> Option<(&[u8], &[u8])>
    ensures { option_map (λ p. (p.0.now, p.1.now)) result ≡ part_first text.now }
{
    match slash(text) {
        Some(place) => Some((&text[..place], &text[place + 1..])),
        None => None,
    }
}

fn row(word: &[u8]) -> Option<Row>
    ensures { result ≡ row_spelled word.now }
{
    let Some((digits, rest)) = part(word) else {
        return None;
    };
    let Some((class, rest)) = part(rest) else {
        return None;
    };
    let Some((account, holder)) = part(rest) else {
        return None;
    };
    match (subject_by(digits, class, account), holder_or(b"-", holder)) {
        (Some(subject), Some(holder)) => Some(Row {
            number: subject.number,
            class: subject.class,
            account: subject.account,
            holder,
        }),
        _ => None,
    }
}

// Puts the rows that the words spell behind those that stand there. None where a word spells none, or more than 16 are there.
fn rows(words: &mut Words) -> Option<Rows>
    ensures { result ≡ rows_spelled words.old }
{
    let mut rows = Rows::new();
    while let Some(word) = words.next() {
        let Some(row) = row(word) else {
            return None;
        };
        if !rows.push(row) {
            return None;
        }
    }
    Some(rows)
}

/// The incidents of a list.
pub(crate) fn listed(words: &mut Words) -> Option<Said>
    ensures { result ≡ listed_line words.old }
{
    let Some(digits) = words.next() else {
        return None;
    };
    match (count(digits), rows(words)) {
        (Some(total), Some(rows)) => Some(Said::Listed { total, rows }),
        _ => None,
    }
}
