// Commands of a desk.
ghost use Rattle.std.specs.Prelude.{◌≡◌};
ghost use Rattle.desk_wire.specs.Commands.{command_of};

use crate::forms::{act, alone, claim, close, login, release, show};
use alarm_rules::Words;
use arc_data::{CloseCode, Outcome, Step, Txt};

/// What an operator types: one line of words, with one space between each two. Numbers are those of incidents, from 1 on.
#[derive(Clone, Copy, PartialEq, Eq)]
pub enum Command {
    /// `login NAME PIN`: the session acts for this operator from now on. A name has 1 to 16 letters, digits, `.`, `_` and `-`, a
    /// PIN 4 to 8 digits.
    Login {
        name: Txt,
        pin: Txt,
    },
    /// `quit`: the session ends.
    Quit,
    /// `next`: the most urgent incident that nobody holds is taken.
    Next,
    /// `claim NUMBER`: the incident is taken.
    Claim {
        number: u64,
    },
    /// `act NUMBER STEP OUTCOME`: what came of a step. The outcome fits the step.
    Act {
        number: u64,
        step: Step,
        outcome: Outcome,
    },
    /// `release NUMBER`: the incident is given back.
    Release {
        number: u64,
    },
    /// `close NUMBER CODE`: the incident is closed.
    Close {
        number: u64,
        code: CloseCode,
    },
    /// `show NUMBER`: the incident is shown.
    Show {
        number: u64,
    },
    /// `list`: the open incidents are shown.
    List,
}

impl Command {
    /// The command that a line, without its end, spells. None where it spells none.
    #[tactic(auto, unfolding(crate::specs::Commands::command_of))]
    pub fn read(line: &[u8]) -> Option<Command>
        ensures { result ≡ command_of line.now }
    {
        let mut words = Words::of(line);
        let Some(first) = words.next() else {
            return None;
        };
        if first == b"login".as_slice() {
            login(&mut words)
        } else if first == b"quit".as_slice() {
            alone(Command::Quit, &mut words)
        } else if first == b"next".as_slice() {
            alone(Command::Next, &mut words)
        } else if first == b"claim".as_slice() {
            claim(&mut words)
        } else if first == b"act".as_slice() {
            act(&mut words)
        } else if first == b"release".as_slice() {
            release(&mut words)
        } else if first == b"close".as_slice() {
            close(&mut words)
        } else if first == b"show".as_slice() {
            show(&mut words)
        } else if first == b"list".as_slice() {
            alone(Command::List, &mut words)
        } else {
            None
        }
    }
}
