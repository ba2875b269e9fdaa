// The events of commands.
ghost use Rattle.std.specs.Prelude.{◌≡◌, true, IfSome};
ghost use Rattle.arc_data.specs.WellFormed.{IsWellFormed};
ghost use Rattle.centre_core.specs.Runs.{IsSubmitted};
ghost use Rattle.desk_wire.specs.Laws.{IsCommand};
ghost use Rattle.desk_session.specs.Events.{event_by, event_of, is_named};
ghost use Rattle.arc_data.specs.Digits.{is_name};

use arc_data::{Event, Txt};
use desk_wire::Command;

/// What is submitted of a command, for the operator for whom the session acts. Nothing is of no command, of a login, of a `quit`, and
/// where the session acts for nobody.
pub(crate) fn event_of(operator: &Option<Txt>, command: &Option<Command>) -> Option<Event>
    requires named { is_named operator.now ≡ true }
    requires ranges { IfSome command.now IsCommand }
    ensures value { result ≡ event_of operator.now command.now }
    ensures formed { IfSome result IsWellFormed }
    ensures submitted { IfSome result IsSubmitted }
{
    match (operator, command) {
        (Some(operator), Some(command)) => event_by(operator, command),
        _ => None,
    }
}

// The event of a command of this operator.
fn event_by(operator: &Txt, command: &Command) -> Option<Event>
    requires named { is_name operator.now ≡ true }
    requires ranges { IsCommand command.now }
    ensures value { result ≡ event_by operator.now command.now }
    ensures formed { IfSome result IsWellFormed }
    ensures submitted { IfSome result IsSubmitted }
{
    let operator = *operator;
    match *command {
        Command::Login { .. } | Command::Quit => None,
        Command::Next => Some(Event::Next { operator }),
        Command::Claim { number } => Some(Event::Claim { operator, number }),
        Command::Act {
            number,
            step,
            outcome,
        } => Some(Event::Act {
            operator,
            number,
            step,
            outcome,
        }),
        Command::Release { number } => Some(Event::Release { operator, number }),
        Command::Close { number, code } => Some(Event::Close {
            operator,
            number,
            code,
        }),
        Command::Show { number } => Some(Event::Show { number }),
        Command::List => Some(Event::List),
    }
}
