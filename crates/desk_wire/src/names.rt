// Words of a desk: names, PINs, numbers, steps, outcomes and codes.
ghost use Rattle.std.specs.Prelude.{◌≡◌};
ghost use Rattle.std.specs.List.{find};
ghost use Rattle.std.specs.Option.{option_map};
ghost use Rattle.std.specs.Str.{bytes_eq};
ghost use Rattle.arc_data.specs.Digits.{is_name};
ghost use Rattle.alarm_rules.specs.SetupWords.{is_pin, word_that};
ghost use Rattle.desk_wire.specs.Names.{number_spelled, step_named, outcome_named, code_named};

use alarm_rules::{is_name, is_pin};
use arc_data::{CloseCode, Outcome, Step, Txt};
use arc_text::dec;

const STEPS: [(&[u8], Step); 10] = [
    (b"premises", Step::Premises),
    (b"holder1", Step::Holder(1)),
    (b"holder2", Step::Holder(2)),
    (b"holder3", Step::Holder(3)),
    (b"holder4", Step::Holder(4)),
    (b"police", Step::Police),
    (b"fire", Step::Fire),
    (b"ambulance", Step::Ambulance),
    (b"guard", Step::Guard),
    (b"note", Step::Note),
];

const OUTCOMES: [(&[u8], Outcome); 3] = [
    (b"reached", Outcome::Reached),
    (b"noanswer", Outcome::NoAnswer),
    (b"done", Outcome::Done),
];

const CODES: [(&[u8], CloseCode); 3] = [
    (b"real", CloseCode::Real),
    (b"false", CloseCode::False),
    (b"test", CloseCode::Test),
];

/// The name of an operator: 1 to 16 letters, digits, `.`, `_` and `-`.
pub(crate) fn name(word: &[u8]) -> Option<Txt>
    ensures { result ≡ word_that is_name word.now }
{
    if is_name(word) { Txt::of(word) } else { None }
}

/// The 4 to 8 digits that an operator logs in with.
pub(crate) fn pin(word: &[u8]) -> Option<Txt>
    ensures { result ≡ word_that is_pin word.now }
{
    if is_pin(word) { Txt::of(word) } else { None }
}

/// The number of an incident, in decimal, from 1 on. None where the word is no such number.
pub fn number(word: &[u8]) -> Option<u64>
    ensures { result ≡ number_spelled word.now }
{
    let number = dec(word)?;
    if number == 0 { None } else { Some(number) }
}

/// The step of this name. None where no step has it.
pub fn step(word: &[u8]) -> Option<Step>
    ensures { result ≡ step_named word.now }
{
    among(word, &STEPS)
}

/// The outcome of this name.
pub(crate) fn outcome(word: &[u8]) -> Option<Outcome>
    ensures { result ≡ outcome_named word.now }
{
    among(word, &OUTCOMES)
}

/// The code of this name.
pub(crate) fn code(word: &[u8]) -> Option<CloseCode>
    ensures { result ≡ code_named word.now }
{
    among(word, &CODES)
}

/// What has this name among these.
fn among<T: Copy>(word: &[u8], named: &[(&[u8], T)]) -> Option<T>
    ensures { result ≡ option_map (λ row. row.1) (find (λ row. bytes_eq word.now row.0.now) named.now) }
{
    named.iter().find(|row| word == row.0).map(|row| row.1)
}
