// What recorded events leave in the rows and the table. None of these calls takes memory.
ghost use Rattle.std.specs.Prelude.{◌≡◌, ◌≤◌, ◌^◌, ◌+◌, ◌∷◌, [], List, ℕ, length, map, IsSome};
ghost use Rattle.std.specs.List.{find};
ghost use Rattle.arc_data.specs.Incidents.{has_number};
ghost use Rattle.arc_data.specs.declared.reply.Reply.TheVariants.{Recorded, Closed};
ghost use Rattle.known_accounts.specs.Rows.{RowsValue, HasRoom};
ghost use Rattle.known_accounts.specs.Supervised.{IsFoundOf, IsPlaceOf};
ghost use Rattle.centre_rules.specs.Marks.{Starts, Hears, Sends, Carries, Carried};
ghost use Rattle.centre_rules.specs.History.{acted_by, claim_marks, act_marks, release_marks, close_marks};
ghost use Rattle.open_incidents.specs.Marked.{IsFew, HaveActRoom, FitsAct};
ghost use Rattle.incidents.specs.Tables.{TableValue};
ghost use Rattle.centre_core.specs.Taken.{Takes, MayTake, AreOf, AreOfMoments, IsFoundFor, IsNoAdopt, marks_with};

use arc_data::{Carried, Event, Message, Outcome, Reply, Step, Txt};
use known_accounts::{AccountPlace, FoundAccount, SupervisedAccounts};
use open_incidents::QueuedTable;

/// Takes up the marks of a recorded event that is no Adopt, with its reply and the signals that it carries. The account of a message or a
/// heartbeat was looked up.
pub(crate) fn mark(
    accounts: &mut SupervisedAccounts,
    table: &mut QueuedTable,
    event: Event,
    at: u64,
    reply: &Reply,
    carried: &[Carried],
    found: FoundAccount,
)
    requires other { IsNoAdopt event }
    requires may { MayTake event at reply.now carried.now accounts.old.rows table.old }
    requires found { IsFoundFor event found accounts.old.text accounts.old.rows.rows }
    ensures text { accounts.new.text ≡ accounts.old.text }
    ensures taken { Takes (marks_with carried.now event at reply.now) accounts.old.rows accounts.new.rows table.old table.new }
{
    match event {
        Event::Start => start(accounts, table, at),
        Event::Message { message, .. } => send(accounts, table, message, at, carried, found),
        Event::Beat { account } => {
            let place = accounts.place_from(found, &account);
            accounts.hear(place, at);
        }
        Event::Tick => carry_each(accounts, table, carried),
        Event::Claim { operator, .. } | Event::Next { operator } => {
            claim(table, operator, at, reply);
        }
        Event::Act {
            operator,
            step,
            outcome,
            ..
        } => act(table, operator, step, outcome, at, reply),
        Event::Release { .. } => release(table, reply),
        Event::Close { .. } => close(table, reply),
        Event::Adopt { .. } => {}
        Event::Show { .. } | Event::List => {}
    }
}

// A run starts.
fn start(accounts: &mut SupervisedAccounts, table: &mut QueuedTable, at: u64)
    ensures text { accounts.new.text ≡ accounts.old.text }
    ensures taken { Takes (Starts at ∷ []) accounts.old.rows accounts.new.rows table.old table.new }
{
    accounts.start(at);
    table.start();
}

// A message is recorded, and its signals are taken up, which are of its account. It was looked up.
fn send(
    accounts: &mut SupervisedAccounts,
    table: &mut QueuedTable,
    message: Message,
    at: u64,
    carried: &[Carried],
    found: FoundAccount,
)
    requires bound { IsFew (2 ^ 61) table.old.opened table.old.incidents }
    requires few { length carried.now ≤ 4000 }
    requires moments { AreOfMoments carried.now }
    requires own { AreOf message.account carried.now }
    requires found { IsFoundOf message.account found accounts.old.text accounts.old.rows.rows }
    requires accounts { HasRoom (message.account ∷ []) accounts.old.rows }
    requires incidents { length table.old.incidents + length carried.now ≤ table.old.room }
    ensures text { accounts.new.text ≡ accounts.old.text }
    ensures taken { Takes (Sends message at ∷ map Carries carried.now) accounts.old.rows accounts.new.rows table.old table.new }
{
    let place = accounts.place_from(found, &message.account);
    accounts.send(place, message, at);
    carry_own(accounts, table, place, carried);
}

// Takes up signals of the account that stands here, one after another.
fn carry_own(
    accounts: &mut SupervisedAccounts,
    table: &mut QueuedTable,
    place: AccountPlace,
    carried: &[Carried],
)
    requires bound { IsFew (2 ^ 61) table.old.opened table.old.incidents }
    requires few { length carried.now ≤ 4000 }
    requires moments { AreOfMoments carried.now }
    requires own { (account : List ℕ) × AreOf account carried.now × IsPlaceOf account place accounts.old }
    requires incidents { length table.old.incidents + length carried.now ≤ table.old.room }
    ensures text { accounts.new.text ≡ accounts.old.text }
    ensures taken { Takes (map Carries carried.now) accounts.old.rows accounts.new.rows table.old table.new }
{
    for x in carried {
        accounts.carry(place, x);
        table.carry(x);
    }
}

// Takes up signals of any accounts, one after another.
fn carry_each(accounts: &mut SupervisedAccounts, table: &mut QueuedTable, carried: &[Carried])
    requires bound { IsFew (2 ^ 61) table.old.opened table.old.incidents }
    requires few { length carried.now ≤ 4000 }
    requires moments { AreOfMoments carried.now }
    requires accounts { HasRoom (map (λ (x : Carried). x.account) carried.now) accounts.old.rows }
    requires incidents { length table.old.incidents + length carried.now ≤ table.old.room }
    ensures text { accounts.new.text ≡ accounts.old.text }
    ensures taken { Takes (map Carries carried.now) accounts.old.rows accounts.new.rows table.old table.new }
{
    for x in carried {
        let place = accounts.place(&x.account);
        accounts.carry(place, x);
        table.carry(x);
    }
}

// An operator holds an incident, if the reply says so.
fn claim(table: &mut QueuedTable, operator: Txt, at: u64, reply: &Reply)
    ensures { (v : RowsValue) → Takes (claim_marks operator at reply.now) v v table.old table.new }
{
    if let Reply::Claimed { number, .. } = reply {
        table.claim(operator, *number, at);
    }
}

// A step is recorded, if the reply says so.
fn act(table: &mut QueuedTable, operator: Txt, step: Step, outcome: Outcome, at: u64, reply: &Reply)
    requires fits { (n left : ℕ) → reply.now ≡ Recorded n left → FitsAct n (acted_by operator step outcome at) table.old.incidents }
    requires acts { HaveActRoom table.old.incidents }
    ensures { (v : RowsValue) → Takes (act_marks (acted_by operator step outcome at) reply.now) v v table.old table.new }
{
    if let Reply::Recorded { number, .. } = reply {
        table.act(*number, step, outcome, at, operator);
    }
}

// An incident is given back, if the reply says so.
fn release(table: &mut QueuedTable, reply: &Reply)
    ensures { (v : RowsValue) → Takes (release_marks reply.now) v v table.old table.new }
{
    if let Reply::Released { number } = reply {
        table.release(*number);
    }
}

// An incident is closed, if the reply says so.
fn close(table: &mut QueuedTable, reply: &Reply)
    requires { (n : ℕ) → reply.now ≡ Closed n → IsSome (find (has_number n) table.old.incidents) }
    ensures { (v : RowsValue) → Takes (close_marks reply.now) v v table.old table.new }
{
    if let Reply::Closed { number } = reply {
        table.close(*number);
    }
}
