// One incident from its opening to its closing, worked out by hand.
use crate::made::{carried, signal, text};
use crate::same::same;
use open_incidents::marks::{carry, claim, close, release, release_all};
use open_incidents::{Class, Kind, Table, Txt};
use std::process::Abort;

fn compare_counts(rt: &impl Abort, table: &Table, count: usize, what: &str) {
    same(rt, table.opened(), 1, what);
    same(rt, table.count(), count, what);
}

// Who holds the first, and since when; it has one signal.
fn compare_first(rt: &impl Abort, table: &Table, holder: Option<Txt>, touched: u64, what: &str) {
    let first = table.get(1).expect(rt, "open");
    same(rt, first.holder, holder, what);
    same(rt, (first.touched, first.signals), (touched, 1), what);
}

#[test]
fn from_opening_to_closing(rt: HostRuntime) {
    let mut table = Table::new(rt.alloc());
    let account = text(&rt, b"1234");
    let burglary = carried(account, signal(&rt, Class::Burglary, Kind::New), 100, false);
    table.reserve(1).expect(&rt, "memory");
    carry(&mut table, &burglary);
    compare_counts(&rt, &table, 1, "opened");
    hold_and_close(&rt, &mut table);
}

fn hold_and_close(rt: &impl Abort, table: &mut Table) {
    let ann = text(rt, b"ann");
    claim(table, ann, 1, 200);
    compare_first(rt, table, Some(ann), 200, "claimed");
    release(table, 1);
    compare_first(rt, table, None, 0, "released");
    claim(table, ann, 1, 300);
    release_all(table);
    compare_first(rt, table, None, 0, "released with all");
    if table.get(1).is_some() {
        close(table, 1);
    }
    compare_counts(rt, table, 0, "closed");
}
