// What is sent to the desk, and what becomes of a session.
ghost use Rattle.std.specs.Prelude.{◌≡◌, ℕ, List, None, if◌then◌else◌};
ghost use Rattle.std.specs.Option.{option_or};
ghost use Rattle.desk_screen.specs.Inputs.{Key, Answer, Second, Made, Lost};
ghost use Rattle.desk_screen.specs.Orders.{due_order, list_paid, logged, owed_told, polled, show_paid, undone_asked, undone_lost};
ghost use Rattle.desk_screen.specs.Orders.{way_sent, wish_left};
ghost use Rattle.desk_said.specs.declared.said.Said.TheVariants.{Strange};
ghost use Rattle.desk_screen.specs.Steps.{IsSession};
ghost use Rattle.desk_screen.specs.declared.reaction.Reaction.{Reaction};

use crate::masking::{is_login, masked, masked_order, typed_of};
use crate::order::{Order, Poll};
use crate::session::Session;
use arc_data::Txt;
use desk_said::Said;
use desk_wire::Command;

// What the screen asks by itself.
fn polled(number: Option<u64>, list: bool) -> Option<Order>
    ensures { result ≡ polled number list }
{
    match number {
        Some(number) => Some(Order::Polled(Poll::One { number })),
        None if list => Some(Order::Polled(Poll::Whole)),
        None => None,
    }
}

// What is to be sent now.
fn due(session: &Session, number: Option<u64>) -> Option<Order>
    ensures { result ≡ due_order session.now.connected session.now.way session.now.wish session.now.user number session.now.list_owed }
{
    if !session.connected {
        return None;
    }
    match (&session.way, &session.wish, &session.user) {
        (Some(_), _, _) => None,
        (None, Some(command), _) => Some(Order::Typed(*command)),
        (None, None, None) => None,
        (None, None, Some(_)) => polled(number, session.list_owed),
    }
}

fn way_sent(order: &Option<Order>, left: &Option<Order>) -> Option<Order>
    ensures { result ≡ way_sent order.now left.now }
{
    match order {
        Some(order) => Some(masked_order(order)),
        None => *left,
    }
}

fn wish_left(order: &Option<Order>, wish: &Option<Command>) -> Option<Command>
    ensures { result ≡ wish_left order.now wish.now }
{
    match order {
        Some(Order::Typed(_)) => None,
        Some(Order::Polled(_)) | None => *wish,
    }
}

fn list_paid(order: &Option<Order>, owed: bool) -> bool
    ensures { result ≡ list_paid order.now owed }
{
    match order {
        Some(Order::Polled(Poll::Whole)) => false,
        Some(Order::Polled(Poll::One { .. })) => owed,
        Some(Order::Typed(_)) => owed,
        None => owed,
    }
}

fn show_paid(order: &Option<Order>, owed: bool) -> bool
    ensures { result ≡ show_paid order.now owed }
{
    match order {
        Some(Order::Polled(Poll::One { .. })) => false,
        Some(Order::Polled(Poll::Whole)) => owed,
        Some(Order::Typed(_)) => owed,
        None => owed,
    }
}

// The session behind what is sent now, if anything is.
fn sent(session: &Session, number: Option<u64>) -> (Session, Option<Order>)
    ensures order { result.1 ≡ due_order session.now.connected session.now.way session.now.wish session.now.user (if session.now.show_owed then number else None) session.now.list_owed }
    ensures left { result.0 ≡ record session.now { way = way_sent result.1 session.now.way; wish = wish_left result.1 session.now.wish; show_owed = show_paid result.1 session.now.show_owed; list_owed = list_paid result.1 session.now.list_owed } }
{
    let number = if session.show_owed { number } else { None };
    let order = due(session, number);
    let left = Session {
        connected: session.connected,
        user: session.user,
        way: way_sent(&order, &session.way),
        wish: wish_left(&order, &session.wish),
        undone: session.undone,
        show_owed: show_paid(&order, session.show_owed),
        list_owed: list_paid(&order, session.list_owed),
        silence: session.silence,
    };
    (left, order)
}

// What is shown as not done behind what a key asked for.
fn undone_asked(asked: &Option<Command>, before: &Option<Command>) -> Option<Command>
    ensures { result ≡ undone_asked asked.now before.now }
{
    match asked {
        Some(command) if is_login(command) => *before,
        Some(_) => None,
        None => *before,
    }
}

// What is shown as not done behind a connection that ended.
fn undone_lost(session: &Session) -> Option<Command>
    ensures { result ≡ undone_lost Lost session.now.way session.now.wish session.now.undone }
{
    match (typed_of(&session.way), &session.wish) {
        (Some(command), _) => Some(command),
        (None, Some(command)) => Some(masked(command)),
        (None, None) => session.undone,
    }
}

fn wish_asked(asked: &Option<Command>, before: &Option<Command>) -> Option<Command>
    ensures { result ≡ option_or asked.now before.now }
{
    match asked {
        Some(command) => Some(*command),
        None => *before,
    }
}

fn logged(said: &Said, before: &Option<Txt>) -> Option<Txt>
    ensures { result ≡ logged said.now before.now }
{
    match said {
        Said::Welcome { name } => Some(*name),
        Said::Denied => None,
        _ => *before,
    }
}

fn owed(way: &Option<Order>, before: bool) -> bool
    ensures { result ≡ owed_told way.now before }
{
    match way {
        Some(Order::Typed(_)) => true,
        Some(Order::Polled(_)) | None => before,
    }
}

/// The session behind a key, and what is sent.
pub(crate) fn keyed(
    session: &Session,
    asked: &Option<Command>,
    number: Option<u64>,
) -> (Session, Option<Order>)
    ensures { (key : ℕ) (r : Reaction) → r.asked ≡ asked.now → r.sent ≡ result.1 → IsSession (Key key) Strange r number session.now result.0 }
{
    let mut next = *session;
    next.wish = wish_asked(asked, &session.wish);
    next.undone = undone_asked(asked, &session.undone);
    sent(&next, number)
}

/// The session behind an answer, behind which a series may ask for a command, and what is sent.
pub(crate) fn told(
    session: &Session,
    said: &Said,
    asked: &Option<Command>,
    number: Option<u64>,
) -> (Session, Option<Order>)
    ensures { (line : List ℕ) (r : Reaction) → r.asked ≡ asked.now → r.sent ≡ result.1 → IsSession (Answer line) said.now r number session.now result.0 }
{
    let mut next = *session;
    next.user = logged(said, &session.user);
    next.way = None;
    next.wish = wish_asked(asked, &session.wish);
    next.undone = undone_asked(asked, &session.undone);
    next.show_owed = owed(&session.way, session.show_owed);
    next.list_owed = owed(&session.way, session.list_owed);
    next.silence = 0;
    sent(&next, number)
}

/// The session behind a second, and what is sent.
pub(crate) fn ticked(session: &Session, number: Option<u64>) -> (Session, Option<Order>)
    ensures { (r : Reaction) → r.asked ≡ None → r.sent ≡ result.1 → IsSession Second Strange r number session.now result.0 }
{
    let mut next = *session;
    next.show_owed = true;
    next.list_owed = true;
    next.silence = session.silence.saturating_add(1);
    sent(&next, number)
}

// The session with a new connection, or without one. Whatever was asked of the last one is not sent again.
fn broken(session: &Session, connected: bool, silence: u64) -> Session
    ensures { result ≡ record session.now { connected = connected; user = None; way = None; wish = None; undone = undone_lost Lost session.now.way session.now.wish session.now.undone; silence = silence } }
{
    Session {
        connected,
        user: None,
        way: None,
        wish: None,
        undone: undone_lost(session),
        show_owed: session.show_owed,
        list_owed: session.list_owed,
        silence,
    }
}

/// The session behind a connection that is made, and what is sent.
pub(crate) fn made(session: &Session, number: Option<u64>) -> (Session, Option<Order>)
    ensures { (r : Reaction) → r.asked ≡ None → r.sent ≡ result.1 → IsSession Made Strange r number session.now result.0 }
{
    sent(&broken(session, true, 0), number)
}

/// The session behind a connection that is lost, and what is sent, which is nothing.
pub(crate) fn lost(session: &Session, number: Option<u64>) -> (Session, Option<Order>)
    ensures { (r : Reaction) → r.asked ≡ None → r.sent ≡ result.1 → IsSession Lost Strange r number session.now result.0 }
{
    sent(&broken(session, false, session.silence), number)
}
