// When one account is silent, and when it closes late, and which signals tell of it.
ghost use Rattle.std.specs.Prelude.{◌≡◌, IfSome};
ghost use Rattle.centre_rules.specs.History.{IsMoment};
ghost use Rattle.centre_rules.specs.Summary.{AccountRow};
ghost use Rattle.known_accounts.specs.Rows.{Tells};
ghost use Rattle.known_accounts.specs.Supervised.{later as later_by, silence_after, lateness_after, moves_deadlines};

use crate::row::Known;
use accounts::Account;
use arc_data::{Carried, Kind};

/// After which moment a Tick finds the account silent, of which this is known.
pub(crate) fn silence(account: &Account, known: Known) -> Option<u64>
    ensures { (row : AccountRow) → Tells row known → result ≡ silence_after row account.now.beat }
{
    let interval = account.beat?;
    if known.failed {
        return None;
    }
    let heard = known.heard?;
    Some(later(heard, interval))
}

/// After which moment a Tick finds that the account closes late, of which this is known.
pub(crate) fn lateness(account: &Account, known: Known) -> Option<u64>
    requires { IfSome known.opening (λ o. IsMoment o.at) }
    ensures { result ≡ lateness_after known.opening account.now.week }
{
    let opened = known.opening?;
    if opened.late {
        return None;
    }
    let close = account.week.next_close(opened.at)?;
    Some(later(close, 900))
}

/// Whether deadlines of an account go by this signal of it: one that a Tick raised, an opening or a closing.
pub(crate) fn moves(x: &Carried) -> bool
    ensures { result ≡ moves_deadlines x.now }
{
    match x.signal.kind {
        Kind::Opening | Kind::Closing => true,
        _ => x.by_tick,
    }
}

// So many seconds after a moment.
fn later(moment: u64, wait: u64) -> u64
    ensures { result ≡ later_by moment wait }
{
    moment.saturating_add(wait)
}
