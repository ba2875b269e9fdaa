// The signals that messages and Ticks carry, each with the steps of the incident that it would open.
ghost use Rattle.std.specs.Prelude.{◌≡◌, ◌<◌, ◌≤◌, ◌+◌, ◌++◌, ◌∷◌, [], List, ℕ, Some, is_some, length, IfOk, IfSome, OnOk};
ghost use Rattle.std.specs.List.{flat_map, All};
ghost use Rattle.arc_data.specs.declared.signal.Class.TheVariants.{CommFail, LateClose};
ghost use Rattle.alarm_rules.specs.Setups.{Account, account_of, has_account, meaning, steps_of};
ghost use Rattle.centre_rules.specs.Carrying.{carried as carried_of, carried_sent, own_signal as plain_signal, is_irregular as irregular_at};
ghost use Rattle.centre_rules.specs.Carrying.{raised_where, is_silent, is_late};
ghost use Rattle.centre_rules.specs.History.{IsMoment};
ghost use Rattle.known_accounts.specs.Supervised.{ArePlacesOf, rows_sum};
ghost use Rattle.centre_core.specs.Raised.{raised_of, IsFound};

use accounts::Setup;
use arc_data::{Carried, Class, Kind, Memory, Signal, Signals, StepList, Txt};
use known_accounts::{Places, SupervisedAccounts};
use std::alloc::Global;

/// The signals of a message of an account, in their order, each with the line by which the message came. An opening signal outside the
/// account's windows is followed by an Irregular signal, which came by none. The error is want of memory.
pub(crate) fn signals_sent(
    alloc: Global,
    setup: &Setup,
    account: &Txt,
    via: &Txt,
    place: Option<usize>,
    at: u64,
    signals: &Signals,
) -> Result<Vec<Carried>, Memory>
    requires moment { IsMoment at }
    requires place { IsFound (meaning setup.now) account.now place }
    requires few { length signals.now ≤ 8 }
    ensures sent { IfOk result (λ v. v.items ≡ flat_map (carried_sent (meaning setup.now) account.now via.now at) signals.now) }
    ensures few { IfOk result (λ v. length v.items ≤ 16) }
{
    let mut sent = Vec::new(alloc);
    for i in 0..signals.count() {
        push_sent(&mut sent, setup, account, via, place, at, signals.at(i))?;
    }
    Ok(sent)
}

/// The signals of a Tick: first of the accounts that are silent, and then of those that close late, in the setup's order. The
/// setup is that in force. The error is want of memory.
pub(crate) fn raise(
    alloc: Global,
    setup: &Setup,
    accounts: &SupervisedAccounts,
    at: u64,
) -> Result<Vec<Carried>, Memory>
    requires moment { IsMoment at }
    requires setup { accounts.now.text ≡ Some setup.now }
    ensures raised { IfOk result (λ v. v.items ≡ raised_where (is_silent (rows_sum accounts.now.rows) [] at) CommFail at (meaning setup.now)
        ++ raised_where (is_late (rows_sum accounts.now.rows) [] at) LateClose at (meaning setup.now)) }
    ensures few { IfOk result (λ v. length v.items ≤ 4000) }
{
    // Its clause says that a setup has at most 2,000 accounts.
    let _most = setup.count();
    let silent = accounts.silent(alloc, at)?;
    let late = accounts.late(alloc, at)?;
    let mut raised = Vec::new(alloc);
    raise_at(&mut raised, setup, &silent, Class::CommFail, at)?;
    raise_at(&mut raised, setup, &late, Class::LateClose, at)?;
    Ok(raised)
}

// Puts a signal that was sent last, and behind it the Irregular signal where it is due.
fn push_sent(
    sent: &mut Vec<Carried>,
    setup: &Setup,
    account: &Txt,
    via: &Txt,
    place: Option<usize>,
    at: u64,
    signal: Signal,
) -> Result<(), Memory>
    requires moment { IsMoment at }
    requires place { IsFound (meaning setup.now) account.now place }
    ensures sent { OnOk result (sent.new.items ≡ sent.old.items ++ carried_sent (meaning setup.now) account.now via.now at signal) }
    ensures few { length sent.new.items ≤ length sent.old.items + 2 }
{
    let irregular = is_irregular(setup, place, signal.kind, at);
    push(
        sent,
        carried(setup, account, place, at, false, *via, signal),
    )?;
    if irregular {
        let signal = own_signal(Class::Irregular);
        let none = Txt::empty();
        push(
            sent,
            carried(setup, account, place, at, false, none, signal),
        )?;
    }
    Ok(())
}

// Puts a signal of this class last for the account at each of the places.
fn raise_at(
    raised: &mut Vec<Carried>,
    setup: &Setup,
    places: &Places,
    class: Class,
    at: u64,
) -> Result<(), Memory>
    requires moment { IsMoment at }
    requires within { All (λ place. place < length (meaning setup.now).accounts) places.now }
    ensures raised { OnOk result ((found : List Account) → ArePlacesOf places.now (meaning setup.now).accounts found
        → raised.new.items ≡ raised.old.items ++ raised_of found class at (meaning setup.now)) }
    ensures few { length raised.new.items ≤ length raised.old.items + length places.now }
{
    for i in 0..places.count() {
        let account = setup.account(places.at(i));
        let place = found(setup, &account.number);
        let signal = own_signal(class);
        let none = Txt::empty();
        push(
            raised,
            carried(setup, &account.number, place, at, true, none, signal),
        )?;
    }
    Ok(())
}

// A signal of an account that stands at a place of the setup, or nowhere, by a line or none, with the steps of the incident that it
// would open.
fn carried(
    setup: &Setup,
    account: &Txt,
    place: Option<usize>,
    at: u64,
    by_tick: bool,
    via: Txt,
    signal: Signal,
) -> Carried
    requires moment { IsMoment at }
    requires place { IsFound (meaning setup.now) account.now place }
    ensures { result ≡ carried_of (meaning setup.now) account.now at by_tick via signal }
{
    Carried {
        account: *account,
        signal,
        at,
        by_tick,
        steps: steps_for(setup, place, signal.class, at),
        via,
    }
}

// The steps of an incident of a class that opens at a moment, of the account that stands at a place of the setup, or nowhere.
fn steps_for(setup: &Setup, place: Option<usize>, class: Class, at: u64) -> StepList
    requires moment { IsMoment at }
    requires within { IfSome place (λ p. p < length (meaning setup.now).accounts) }
    ensures { (account : List ℕ) → IsFound (meaning setup.now) account place → result ≡ steps_of (meaning setup.now) account class at }
{
    let Some(place) = place else {
        return StepList::new();
    };
    let station = setup.account(place);
    let plan = setup.plan(place, class);
    plan.steps(station.week.in_hours(at), station.holders)
}

// Whether a signal of this kind is an opening outside the windows of the account that stands at a place of the setup, or nowhere.
fn is_irregular(setup: &Setup, place: Option<usize>, kind: Kind, at: u64) -> bool
    requires moment { IsMoment at }
    requires within { IfSome place (λ p. p < length (meaning setup.now).accounts) }
    ensures { (account : List ℕ) → IsFound (meaning setup.now) account place → result ≡ irregular_at (account_of (meaning setup.now) account) kind at }
{
    if !matches!(kind, Kind::Opening) {
        return false;
    }
    let Some(place) = place else {
        return false;
    };
    let week = &setup.account(place).week;
    week.has_windows() && !week.in_hours(at)
}

/// The place of an account in a setup, or none.
pub(crate) fn found(setup: &Setup, account: &Txt) -> Option<usize>
    ensures found { IsFound (meaning setup.now) account.now result }
    ensures known { is_some result ≡ has_account (meaning setup.now) account.now }
{
    setup.place(account)
}

// A signal that no panel sent, and which came by no line.
fn own_signal(class: Class) -> Signal
    ensures { result ≡ plain_signal class }
{
    Signal {
        class,
        kind: Kind::New,
        code: Txt::of(b"-").unwrap(),
    }
}

// Puts a signal last.
fn push(carried: &mut Vec<Carried>, x: Carried) -> Result<(), Memory>
    ensures pushed { OnOk result (carried.new.items ≡ carried.old.items ++ x ∷ []) }
    ensures few { length carried.new.items ≤ length carried.old.items + 1 }
{
    match carried.push(x) {
        Ok(()) => Ok(()),
        Err(_) => Err(Memory),
    }
}
