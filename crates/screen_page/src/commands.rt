// Commands as a desk reads them.
ghost use Rattle.std.specs.Prelude.{◌≡◌, ◌≤◌, ◌++◌, length, decimal};
ghost use Rattle.desk_wire.specs.Laws.{spelling};
ghost use Rattle.desk_wire.specs.Names.{step_name};
ghost use Rattle.desk_wire.specs.declared.command.Command.TheVariants.{Act, Close, Login};
ghost use Rattle.screen_page.specs.Sent.{order_line};

use crate::line::Line;
use arc_data::{CloseCode, Outcome, Step, Txt};
use desk_screen::{Order, Poll};
use desk_wire::Command;

fn alone(word: &[u8]) -> Line
    requires { length word.now ≤ 8 }
    ensures { result ≡ word.now }
{
    let mut line = Line::new();
    line.put(word);
    line
}

fn numbered(front: &[u8], number: u64) -> Line
    requires { length front.now ≤ 8 }
    ensures text { result ≡ front.now ++ decimal number }
    ensures size { length result ≤ 28 }
{
    let mut line = Line::new();
    line.put(front);
    line.put_number(number);
    line
}

fn login(name: &Txt, pin: &Txt) -> Line
    ensures { result ≡ spelling (Login name.now pin.now) }
{
    let mut line = Line::new();
    line.put(b"login ");
    line.put(name.bytes());
    line.put(b" ");
    line.put(pin.bytes());
    line
}

fn act(number: u64, step: Step, outcome: Outcome) -> Line
    ensures { result ≡ spelling (Act number step outcome) }
{
    let mut line = numbered(b"act ", number);
    line.put(b" ");
    line.put_step(step);
    line.put(b" ");
    line.put_outcome(outcome);
    line
}

fn close(number: u64, code: CloseCode) -> Line
    ensures { result ≡ spelling (Close number code) }
{
    let mut line = numbered(b"close ", number);
    line.put(b" ");
    line.put_code(code);
    line
}

/// The name of a step.
pub(crate) fn step_line(step: Step) -> Line
    ensures { result ≡ step_name step }
{
    let mut line = Line::new();
    line.put_step(step);
    line
}

/// The line that a command is at a desk, without its end.
pub fn spelled(command: &Command) -> Line
    ensures { result ≡ spelling command.now }
{
    match command {
        Command::Login { name, pin } => login(name, pin),
        Command::Quit => alone(b"quit"),
        Command::Next => alone(b"next"),
        Command::Claim { number } => numbered(b"claim ", *number),
        Command::Act {
            number,
            step,
            outcome,
        } => act(*number, *step, *outcome),
        Command::Release { number } => numbered(b"release ", *number),
        Command::Close { number, code } => close(*number, *code),
        Command::Show { number } => numbered(b"show ", *number),
        Command::List => alone(b"list"),
    }
}

/// The line that the desk is sent for an order, without its end.
pub fn order_line(order: &Order) -> Line
    ensures { result ≡ order_line order.now }
{
    match order {
        Order::Typed(command) => spelled(command),
        Order::Polled(Poll::Whole) => spelled(&Command::List),
        Order::Polled(Poll::One { number }) => spelled(&Command::Show { number: *number }),
    }
}
