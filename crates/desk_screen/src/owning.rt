// Which incident is the operator's own.
ghost use Rattle.std.specs.Prelude.{◌≡◌, ◌==◌, Some};
ghost use Rattle.std.specs.List.{find, list_any};
ghost use Rattle.desk_screen.specs.Owning.{dropped, due_of, held_in, is_held_by, is_shown_by, kept, lost_in, mere, number_of, own_number, own_told};
ghost use Rattle.desk_screen.specs.Owning.{owned_by, same_number, seen, told_at, untold_number, viewed, with_due, worked_on};

use crate::masking::typed_of;
use crate::order::Order;
use crate::own::{Due, Own};
use arc_data::{Row, Step, Txt, View};
use desk_said::Said;
use desk_wire::Command;

fn due_of(step: Option<Step>) -> Due
    ensures { result ≡ due_of step }
{
    match step {
        Some(step) => Due::Ahead(step),
        None => Due::AllMet,
    }
}

/// The number of the own incident.
pub(crate) fn own_number(own: &Option<Own>) -> Option<u64>
    ensures { result ≡ own_number own.now }
{
    match own {
        Some(own) => Some(own.number),
        None => None,
    }
}

/// Whether two numbers are the same, or both are none.
pub(crate) fn same_number(one: Option<u64>, other: Option<u64>) -> bool
    ensures { result ≡ same_number one other }
{
    match (one, other) {
        (Some(one), Some(other)) => one == other,
        (Some(_), None) => false,
        (None, Some(_)) => false,
        (None, None) => true,
    }
}

fn number_of(command: &Command) -> Option<u64>
    ensures { result ≡ number_of command.now }
{
    match command {
        Command::Act { number, .. } => Some(*number),
        Command::Close { number, .. } => Some(*number),
        _ => None,
    }
}

/// The incident that the command on the way works on.
pub(crate) fn worked_on(way: &Option<Order>) -> Option<u64>
    ensures { result ≡ worked_on way.now }
{
    match typed_of(way) {
        Some(command) => number_of(&command),
        None => None,
    }
}

/// The number of an own incident whose step the desk has still to tell.
pub(crate) fn untold_number(own: &Option<Own>) -> Option<u64>
    ensures { result ≡ untold_number own.now }
{
    match own {
        Some(own) => match own.due {
            Due::Untold => Some(own.number),
            Due::AllMet | Due::Ahead(_) => None,
        },
        None => None,
    }
}

fn mere(number: u64) -> Own
    ensures { result ≡ mere number }
{
    Own {
        number,
        due: Due::Untold,
        view: None,
    }
}

/// The own incident, of whose steps this is known.
pub(crate) fn with_due(due: Due, own: &Option<Own>) -> Option<Own>
    ensures { result ≡ with_due due own.now }
{
    match own {
        Some(own) => Some(Own {
            number: own.number,
            due,
            view: own.view,
        }),
        None => None,
    }
}

fn told_at(number: Option<u64>, due: Due, own: &Option<Own>) -> Option<Own>
    ensures { result ≡ told_at number due own.now }
{
    if same_number(number, own_number(own)) {
        with_due(due, own)
    } else {
        *own
    }
}

fn dropped(number: u64, own: &Option<Own>) -> Option<Own>
    ensures { result ≡ dropped number own.now }
{
    match own {
        Some(own) if own.number == number => None,
        Some(own) => Some(*own),
        None => None,
    }
}

fn is_held_by(user: &Option<Txt>, holder: &Option<Txt>) -> bool
    ensures { result ≡ is_held_by user.now holder.now }
{
    match (user, holder) {
        (Some(name), Some(holder)) => holder == name,
        _ => false,
    }
}

fn is_shown_by(name: &Txt, view: &Option<View>) -> bool
    ensures { result ≡ is_shown_by name.now view.now }
{
    match view {
        Some(view) => is_held_by(&Some(*name), &view.holder),
        None => false,
    }
}

fn owned_by(name: &Txt, own: &Option<Own>) -> Option<Own>
    ensures { result ≡ owned_by name.now own.now }
{
    match own {
        Some(own) if is_shown_by(name, &own.view) => Some(Own {
            number: own.number,
            due: Due::Untold,
            view: own.view,
        }),
        _ => None,
    }
}

fn viewed(user: &Option<Txt>, view: &View) -> Option<Own>
    ensures { result ≡ viewed user.now view.now }
{
    if is_held_by(user, &view.holder) {
        Some(Own {
            number: view.number,
            due: due_of(view.expected),
            view: Some(*view),
        })
    } else {
        None
    }
}

fn seen(user: &Option<Txt>, view: &View, own: &Option<Own>) -> Option<Own>
    ensures { result ≡ seen user.now view.now own.now }
{
    match own {
        Some(own) if own.number == view.number => viewed(user, view),
        Some(own) => Some(*own),
        None => None,
    }
}

fn kept(number: u64, own: &Option<Own>) -> Option<Own>
    ensures { result ≡ kept number own.now }
{
    match own {
        Some(own) if own.number == number => Some(*own),
        _ => Some(mere(number)),
    }
}

fn has_number(rows: &[Row], number: u64) -> bool
    ensures { result ≡ list_any (λ r. r.number == number) rows.now }
{
    rows.iter().any(|row| row.number == number)
}

fn lost_in(rows: &[Row], own: &Option<Own>) -> Option<Own>
    ensures { result ≡ lost_in rows.now own.now }
{
    match own {
        Some(own) => {
            if has_number(rows, own.number) {
                None
            } else {
                Some(*own)
            }
        }
        None => None,
    }
}

// The number of the first incident that the operator holds.
fn held(rows: &[Row], user: &Option<Txt>) -> Option<Row>
    ensures { result ≡ find (λ r. is_held_by user.now r.holder) rows.now }
{
    rows.iter()
        .copied()
        .find(|row| is_held_by(user, &row.holder))
}

fn held_in(rows: &[Row], user: &Option<Txt>, own: &Option<Own>) -> Option<Own>
    ensures { result ≡ held_in rows.now (find (λ r. is_held_by user.now r.holder) rows.now) own.now }
{
    match held(rows, user) {
        Some(row) => kept(row.number, own),
        None => lost_in(rows, own),
    }
}

/// The operator's own incident behind an answer to a command that works on an incident, or on none.
pub(crate) fn own_told(
    said: &Said,
    about: Option<u64>,
    user: &Option<Txt>,
    own: &Option<Own>,
) -> Option<Own>
    ensures { result ≡ own_told said.now about user.now own.now }
{
    match said {
        Said::Welcome { name } => owned_by(name, own),
        Said::Claimed { number, .. } => Some(mere(*number)),
        Said::BusyWith { number } => Some(mere(*number)),
        Said::Recorded { number, .. } => told_at(Some(*number), Due::Untold, own),
        Said::Expected { step } => told_at(about, due_of(*step), own),
        Said::Missing { step } => told_at(about, Due::Ahead(*step), own),
        Said::Released { number } => dropped(*number, own),
        Said::Closed { number } => dropped(*number, own),
        Said::NotOpen { number } => dropped(*number, own),
        Said::NotYours { number } => dropped(*number, own),
        Said::Shown(view) => seen(user, view, own),
        Said::Listed { rows, .. } => held_in(rows.items(), user, own),
        _ => *own,
    }
}
