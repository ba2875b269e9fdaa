// Answers that the hall is not asked for.
ghost use Rattle.std.specs.Prelude.{◌≡◌, true, false, Ok, Err, Some, IfErr, if◌then◌else◌};
ghost use Rattle.alarm_rules.specs.Setups.{meaning};
ghost use Rattle.arc_io.specs.Told.{Puts};
ghost use Rattle.desk_session.specs.Asking.{IsSaid, said_as};
ghost use Rattle.desk_session.specs.Events.{acts_after, ends, has_pin, login_text, text_of};

use crate::desk_end::DeskEnd;
use accounts::Setup;
use arc_data::Txt;
use arc_io::{Failed, Port, put};
use centre_core::Hall;
use desk_wire::{Command, print_welcome};

/// Answers a line that submits nothing, of which this is the command. A login with a PIN of the setup changes for whom the session
/// acts.
pub(crate) fn say<H: Hall, P: Port>(
    hall: &H,
    port: &mut P,
    operator: &mut Option<Txt>,
    command: &Option<Command>,
) -> Result<(), DeskEnd>
    requires { (H.seen hall.now).ready }
    ensures acts { operator.new ≡ acts_after (meaning (H.seen hall.now).text) operator.old command.now }
    ensures said { Puts (P.seen port.old) (P.seen port.new) (said_as result) (text_of (meaning (H.seen hall.now).text) command.now) }
    ensures how { IsSaid result }
    ensures quit { result ≡ Err DeskEnd.Quit → ends command.now ≡ true }
    ensures goes_on { result ≡ Ok tt → ends command.now ≡ false }
{
    match command {
        None => tell(port, b"what\n"),
        Some(Command::Login { name, pin }) => log_in(hall, port, operator, name, pin),
        Some(Command::Quit) => {
            tell(port, b"bye\n")?;
            Err(DeskEnd::Quit)
        }
        Some(_) => tell(port, b"denied\n"),
    }
}

// Answers a login.
fn log_in<H: Hall, P: Port>(
    hall: &H,
    port: &mut P,
    operator: &mut Option<Txt>,
    name: &Txt,
    pin: &Txt,
) -> Result<(), DeskEnd>
    requires { (H.seen hall.now).ready }
    ensures acts { operator.new ≡ (if has_pin (meaning (H.seen hall.now).text) name.now pin.now then Some name.now else operator.old) }
    ensures said { Puts (P.seen port.old) (P.seen port.new) result (login_text (has_pin (meaning (H.seen hall.now).text) name.now pin.now) name.now) }
    ensures how { IfErr result (λ end. end ≡ DeskEnd.WriteFault) }
{
    if !has_pin(hall.setup(), name, pin) {
        return tell(port, b"denied\n");
    }
    *operator = Some(*name);
    match print_welcome(name, port) {
        Ok(()) => Ok(()),
        Err(Failed) => Err(DeskEnd::WriteFault),
    }
}

// Whether the setup has an operator of this name with this PIN.
fn has_pin(setup: &Setup, name: &Txt, pin: &Txt) -> bool
    ensures { result ≡ has_pin (meaning setup.now) name.now pin.now }
{
    match setup.operator(name) {
        Some(operator) => operator.pin == *pin,
        None => false,
    }
}

// Prints a line.
fn tell<P: Port>(port: &mut P, line: &[u8]) -> Result<(), DeskEnd>
    ensures said { Puts (P.seen port.old) (P.seen port.new) result line.now }
    ensures how { IfErr result (λ end. end ≡ DeskEnd.WriteFault) }
{
    match put(port, line) {
        Ok(()) => Ok(()),
        Err(Failed) => Err(DeskEnd::WriteFault),
    }
}
