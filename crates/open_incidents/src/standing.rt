// Who holds an open incident at a moment: its claimer, unless that hold has lapsed.
ghost use Rattle.std.specs.Prelude.{◌≡◌};
ghost use Rattle.std.specs.Option.{option_map};
ghost use Rattle.centre_rules.specs.Desks.{holds as holds_it, numbered};
ghost use Rattle.centre_rules.specs.Standing.{has_lapsed as is_past, stands_at, standing_of};

use arc_data::{Incident, Txt};
use incidents::Table;

/// Whether a hold that was last touched then has lapsed at a moment. It lapses where more than so many seconds have passed since, and
/// never where no number of seconds is given.
pub fn has_lapsed(touched: u64, at: u64, lapse: Option<u64>) -> bool
    ensures { result ≡ is_past lapse touched at }
{
    match lapse {
        Some(seconds) => touched <= at && seconds < at - touched,
        None => false,
    }
}

/// The operator who holds the incident at a moment, where holds lapse after so many seconds.
pub fn holder_at(i: &Incident, at: u64, lapse: Option<u64>) -> Option<Txt>
    ensures { result ≡ (stands_at lapse at i.now).holder }
{
    if has_lapsed(i.touched, at, lapse) {
        None
    } else {
        i.holder
    }
}

/// Whether an operator holds the incident at a moment.
pub fn holds(i: &Incident, operator: &Txt, at: u64, lapse: Option<u64>) -> bool
    ensures { result ≡ holds_it operator.now (stands_at lapse at i.now) }
{
    match holder_at(i, at, lapse) {
        Some(holder) => holder == *operator,
        None => false,
    }
}

/// The open incident of a number, with its claimer. Its clause speaks of it as it stands at a moment.
pub(crate) fn open_at(table: &Table, number: u64, at: u64, lapse: Option<u64>) -> Option<&Incident>
    ensures { option_map (λ i. stands_at lapse at i.now) result ≡ numbered number (standing_of lapse at table.now.incidents) }
{
    table.get(number)
}
