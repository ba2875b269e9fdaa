// What no clause says: that memory for a table is found, the worked life of three incidents, and many incidents.
use crate::made::text;
use crate::same::{holds, same};
use incidents::{Acts, Class, Incident, Outcome, Step, StepList, Table, Txt};
use std::alloc::Global;
use std::process::Abort;

fn note() -> StepList {
    let mut steps = StepList::new();
    let _ = steps.push(Step::Note);
    steps
}

// Opens an incident, where none of its account and class is open. The answer is its number, or 0.
pub(crate) fn open(
    rt: &impl Abort,
    table: &mut Table,
    account: &[u8],
    class: Class,
    at: u64,
) -> u64 {
    let account = text(rt, account);
    table.reserve(1).expect(rt, "memory");
    if table.opened() > 99 || table.find(&account, class).is_some() {
        return 0;
    }
    table.raise(
        account,
        class,
        text(rt, b"130"),
        at,
        note(),
        text(rt, b"l1"),
    )
}

fn attach(table: &mut Table, number: u64) {
    if let Some(incident) = table.get(number) {
        if incident.signals < 9 {
            table.attach(number);
        }
    }
}

fn act(table: &mut Table, number: u64, at: u64, operator: Txt) {
    if let Some(incident) = table.get(number) {
        if incident.acts.count() < 10 {
            table.act(number, Step::Note, Outcome::Done, at, operator);
        }
    }
}

// Whether one was open until now.
fn close(table: &mut Table, number: u64) -> bool {
    if table.get(number).is_none() {
        return false;
    }
    table.remove(number);
    true
}

fn three_incidents(rt: &impl Abort, alloc: Global) -> Table {
    let mut table = Table::new(alloc);
    open(rt, &mut table, b"1234", Class::Burglary, 100);
    open(rt, &mut table, b"1234", Class::Fire, 200);
    open(rt, &mut table, b"ABC", Class::Burglary, 300);
    same(rt, table.count(), 3, "open");
    same(rt, table.opened(), 3, "opened");
    table
}

fn compare_found(rt: &impl Abort, table: &Table, account: &str, class: Class, want: Option<u64>) {
    let number = table.find(&text(rt, account.as_bytes()), class);
    same(rt, number, want, account);
}

#[test]
fn one_of_an_account_and_a_class(rt: HostRuntime) {
    let mut table = three_incidents(&rt, rt.alloc());
    compare_found(&rt, &table, "1234", Class::Burglary, Some(1));
    compare_found(&rt, &table, "1234", Class::Fire, Some(2));
    compare_found(&rt, &table, "ABC", Class::Burglary, Some(3));
    compare_found(&rt, &table, "ABC", Class::Fire, None);
    compare_found(&rt, &table, "123", Class::Fire, None);
    close_and_open(&rt, &mut table);
}

// The second is closed once, and then another one of its account and class opens.
fn close_and_open(rt: &impl Abort, table: &mut Table) {
    let number = open(rt, table, b"1234", Class::Fire, 400);
    same(rt, number, 0, "one is open");
    holds(rt, close(table, 2), "open until now");
    holds(rt, !close(table, 2), "closed once");
    compare_found(rt, table, "1234", Class::Fire, None);
    let number = open(rt, table, b"1234", Class::Fire, 400);
    same(rt, number, 4, "opened again");
    compare_found(rt, table, "1234", Class::Fire, Some(4));
}

// How many signals an open incident has, whether it is restored, and when it was touched.
fn compare_marks(rt: &impl Abort, table: &Table, number: u64, want: (u64, bool, u64), what: &str) {
    let incident = table.get(number).expect(rt, "open");
    let marks = (incident.signals, incident.restored, incident.touched);
    same(rt, marks, want, what);
}

fn compare_holder(rt: &impl Abort, table: &Table, number: u64, want: Option<Txt>) {
    let incident = table.get(number).expect(rt, "open");
    same(rt, incident.holder, want, "who holds it");
    let counts = (incident.acts.count(), incident.steps.count());
    same(rt, counts, (1, 1), "acts and steps");
}

#[test]
fn the_life_of_an_incident(rt: HostRuntime) {
    let mut table = three_incidents(&rt, rt.alloc());
    let ann = text(&rt, b"ann");
    table.mark_restored(1);
    attach(&mut table, 3);
    table.mark_restored(3);
    table.hold(3, Some(ann), 500);
    act(&mut table, 3, 600, ann);
    compare_marks(&rt, &table, 1, (1, true, 0), "the first");
    compare_marks(&rt, &table, 3, (2, true, 600), "the third");
    compare_holder(&rt, &table, 3, Some(ann));
    attach(&mut table, 3);
    table.release_all();
    compare_marks(&rt, &table, 3, (3, false, 0), "the third at last");
    compare_holder(&rt, &table, 3, None);
}

// Two incidents of each of twenty accounts.
fn open_one(rt: &impl Abort, table: &mut Table, k: u8) {
    let class = if k % 2 == 0 { Class::Gas } else { Class::Panic };
    open(rt, table, &[b'A' + k / 2], class, u64::from(k));
}

fn open_forty(rt: &impl Abort, table: &mut Table) {
    for k in 0..40u8 {
        open_one(rt, table, k);
    }
    same(rt, table.count(), 40, "open");
}

fn close_every_third(rt: &impl Abort, table: &mut Table) {
    for third in 0..13u64 {
        holds(rt, close(table, 3 * third + 1), "open until now");
    }
    same(rt, table.count(), 27, "open still");
    same(rt, table.opened(), 40, "opened");
}

fn compare_open(rt: &impl Abort, table: &Table) {
    for number in 0..42u64 {
        let is_open = number == 40 || number % 3 != 1 && number > 0 && number < 40;
        let told = (number, table.get(number).is_some());
        same(rt, told, (number, is_open), "whether open");
    }
}

#[test]
fn many_incidents_and_gaps(rt: HostRuntime) {
    let mut table = Table::new(rt.alloc());
    open_forty(&rt, &mut table);
    close_every_third(&rt, &mut table);
    compare_open(&rt, &table);
}

fn open_sixty(rt: &impl Abort, table: &mut Table) {
    for k in 0..60u8 {
        open_one(rt, table, k);
    }
    same(rt, table.count(), 60, "open");
}

// All but each third, in an order that goes seven on each time: 61 is a prime number, so each number comes once.
fn close_forty(rt: &impl Abort, table: &mut Table) {
    for step in 1..61u64 {
        let number = 7 * step % 61;
        if number % 3 > 0 {
            holds(rt, close(table, number), "open until now");
        }
    }
    same(rt, table.count(), 20, "open still");
    same(rt, table.opened(), 60, "opened");
}

// The first, second, fourth and fifth place of an account and a class are free, so four more open.
fn open_again(rt: &impl Abort, table: &mut Table) {
    for k in 0..5u8 {
        open_one(rt, table, k);
    }
    same(rt, table.count(), 24, "open again");
    same(rt, table.opened(), 64, "opened again");
}

// Each third number up to 60, and then each number before this end: in order, and no others.
fn compare_numbers(rt: &impl Abort, table: &Table, end: u64) {
    let mut wanted = 3u64;
    for slot in table.slots() {
        if let Some(incident) = slot.incident() {
            same(rt, incident.number, wanted, "in order");
            wanted = if wanted < 60 {
                wanted + 3
            } else {
                wanted.saturating_add(1)
            };
        }
    }
    same(rt, wanted, end, "all that are open");
}

fn compare_thirds(rt: &impl Abort, table: &Table, end: u64) {
    for number in 0..70u64 {
        let is_open = number > 0 && number < 61 && number % 3 == 0 || number > 60 && number < end;
        let told = (number, table.get(number).is_some());
        same(rt, told, (number, is_open), "whether open");
    }
}

#[test]
fn many_closed_in_any_order(rt: HostRuntime) {
    let mut table = Table::new(rt.alloc());
    open_sixty(&rt, &mut table);
    close_forty(&rt, &mut table);
    compare_numbers(&rt, &table, 61);
    compare_thirds(&rt, &table, 61);
    open_again(&rt, &mut table);
    compare_numbers(&rt, &table, 65);
    compare_thirds(&rt, &table, 65);
}

// A held incident with a number that was given before.
fn held_before(rt: &impl Abort) -> Incident {
    Incident {
        number: 7,
        account: text(rt, b"1234"),
        class: Class::Gas,
        code: text(rt, b"151"),
        at: 100,
        signals: 5,
        restored: true,
        holder: Some(text(rt, b"ann")),
        touched: 200,
        steps: note(),
        acts: Acts::new(),
        via: text(rt, b"l2"),
    }
}

// A table of nine incidents that were opened, of which this one is open.
fn put_back(rt: &impl Abort, alloc: Global, incident: Incident) -> Table {
    let mut table = Table::opened_at(alloc, 9);
    same(
        rt,
        (table.opened(), table.count()),
        (9, 0),
        "opened and closed",
    );
    table.reserve(1).expect(rt, "memory");
    if 0 < incident.number && incident.number <= 9 {
        table.put(incident);
    }
    table
}

#[test]
fn an_incident_is_put_back(rt: HostRuntime) {
    let mut table = put_back(&rt, rt.alloc(), held_before(&rt));
    same(&rt, (table.opened(), table.count()), (9, 1), "put back");
    compare_found(&rt, &table, "1234", Class::Gas, Some(7));
    compare_marks(&rt, &table, 7, (5, true, 200), "as it was");
    let number = open(&rt, &mut table, b"1234", Class::Gas, 300);
    same(&rt, number, 0, "one is open");
    let number = open(&rt, &mut table, b"1234", Class::Fire, 300);
    same(&rt, number, 10, "the next number");
}
