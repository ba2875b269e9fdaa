// Commands as they may be shown.
ghost use Rattle.std.specs.Prelude.{◌≡◌, codes};
ghost use Rattle.desk_screen.specs.Orders.{is_login, masked, masked_order, typed_of};

use crate::order::Order;
use arc_data::Txt;
use desk_wire::Command;

// What stands for the digits of a PIN.
fn stars() -> Txt
    ensures { result ≡ codes "****" }
{
    match Txt::of(b"****") {
        Some(text) => text,
        None => Txt::empty(),
    }
}

/// A command without the digits of a PIN.
pub(crate) fn masked(command: &Command) -> Command
    ensures { result ≡ masked command.now }
{
    match command {
        Command::Login { name, .. } => Command::Login {
            name: *name,
            pin: stars(),
        },
        Command::Quit => Command::Quit,
        Command::Next => Command::Next,
        Command::Claim { number } => Command::Claim { number: *number },
        Command::Act {
            number,
            step,
            outcome,
        } => Command::Act {
            number: *number,
            step: *step,
            outcome: *outcome,
        },
        Command::Release { number } => Command::Release { number: *number },
        Command::Close { number, code } => Command::Close {
            number: *number,
            code: *code,
        },
        Command::Show { number } => Command::Show { number: *number },
        Command::List => Command::List,
    }
}

/// An order without the digits of a PIN.
pub(crate) fn masked_order(order: &Order) -> Order
    ensures { result ≡ masked_order order.now }
{
    match order {
        Order::Typed(command) => Order::Typed(masked(command)),
        Order::Polled(poll) => Order::Polled(*poll),
    }
}

/// The command of the operator's own.
pub(crate) fn typed_of(order: &Option<Order>) -> Option<Command>
    ensures { result ≡ typed_of order.now }
{
    match order {
        Some(Order::Typed(command)) => Some(*command),
        Some(Order::Polled(_)) | None => None,
    }
}

/// Whether a command is a login.
pub(crate) fn is_login(command: &Command) -> bool
    ensures { result ≡ is_login command.now }
{
    match command {
        Command::Login { .. } => true,
        Command::Quit => false,
        Command::Next => false,
        Command::Claim { .. } => false,
        Command::Act { .. } => false,
        Command::Release { .. } => false,
        Command::Close { .. } => false,
        Command::Show { .. } => false,
        Command::List => false,
    }
}
