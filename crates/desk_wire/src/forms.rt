// The forms of a desk's lines, by the words behind the first one.
ghost use Rattle.std.specs.Prelude.{◌≡◌};
ghost use Rattle.std.specs.Option.{option_map};
ghost use Rattle.desk_wire.specs.declared.command.Command.TheVariants.{Claim, Release, Show};
ghost use Rattle.desk_wire.specs.Commands.{login_line, alone, one_number, act_line, close_line};

use crate::command::Command;
use crate::names::{code, name, number, outcome, pin, step};
use action_plans::fits;
use alarm_rules::Words;

/// `login NAME PIN`
pub(crate) fn login(words: &mut Words) -> Option<Command>
    ensures { result ≡ login_line words.old }
{
    let (Some(name_word), Some(digits), true) = (words.next(), words.next(), words.is_empty())
    else {
        return None;
    };
    match (name(name_word), pin(digits)) {
        (Some(name), Some(pin)) => Some(Command::Login { name, pin }),
        _ => None,
    }
}

/// A command of one word.
pub(crate) fn alone(command: Command, words: &mut Words) -> Option<Command>
    ensures { result ≡ alone command words.old }
{
    if words.is_empty() {
        Some(command)
    } else {
        None
    }
}

/// The number of a command that has nothing else.
pub(crate) fn one_number(words: &mut Words) -> Option<u64>
    ensures { result ≡ one_number words.old }
{
    match (words.next(), words.is_empty()) {
        (Some(word), true) => number(word),
        _ => None,
    }
}

/// `claim NUMBER`
pub(crate) fn claim(words: &mut Words) -> Option<Command>
    ensures { result ≡ option_map Claim (one_number words.old) }
{
    match one_number(words) {
        Some(number) => Some(Command::Claim { number }),
        None => None,
    }
}

/// `release NUMBER`
pub(crate) fn release(words: &mut Words) -> Option<Command>
    ensures { result ≡ option_map Release (one_number words.old) }
{
    match one_number(words) {
        Some(number) => Some(Command::Release { number }),
        None => None,
    }
}

/// `show NUMBER`
pub(crate) fn show(words: &mut Words) -> Option<Command>
    ensures { result ≡ option_map Show (one_number words.old) }
{
    match one_number(words) {
        Some(number) => Some(Command::Show { number }),
        None => None,
    }
}

/// `act NUMBER STEP OUTCOME`
pub(crate) fn act(words: &mut Words) -> Option<Command>
    ensures { result ≡ act_line words.old }
{
    let (Some(digits), Some(step_name), Some(outcome_name), true) = (
        words.next(),
        words.next(),
        words.next(),
        words.is_empty(),
    ) else {
        return None;
    };
    match (number(digits), step(step_name), outcome(outcome_name)) {
        (Some(number), Some(step), Some(outcome)) if fits(step, outcome) => Some(Command::Act {
            number,
            step,
            outcome,
        }),
        _ => None,
    }
}

/// `close NUMBER CODE`
pub(crate) fn close(words: &mut Words) -> Option<Command>
    ensures { result ≡ close_line words.old }
{
    let (Some(digits), Some(code_name), true) = (words.next(), words.next(), words.is_empty())
    else {
        return None;
    };
    match (number(digits), code(code_name)) {
        (Some(number), Some(code)) => Some(Command::Close { number, code }),
        _ => None,
    }
}
