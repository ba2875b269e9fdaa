// What no clause says: that memory for a list is found; and the order of a list, worked out by hand.
use crate::incidents_tests::open;
use crate::same::same;
use arc_data::{Class, Listing};
use incidents::Table;
use open_incidents::Reply;
use open_incidents::listing::list;
use std::alloc::Global;
use std::process::Abort;

const CLASSES: [Class; 4] = [Class::Trouble, Class::Fire, Class::Burglary, Class::Tamper];

// The numbers of the first 16 of 18 incidents, whose classes follow each other as above.
const FIRST: [u64; 16] = [2, 6, 10, 14, 18, 3, 7, 11, 15, 4, 8, 12, 16, 1, 5, 9];

fn eighteen(rt: &impl Abort, alloc: Global) -> Table {
    let mut table = Table::new(alloc);
    for k in 0..18u8 {
        let class = CLASSES[(k % 4) as usize];
        open(rt, &mut table, &[b'A' + k], class, 100);
    }
    table
}

// The list of the open incidents, which tells how many there are, and has so many rows.
fn listed(rt: &impl Abort, alloc: Global, table: &Table, total: u64, count: usize) -> Listing {
    let reply = list(alloc, table, 100, None).expect(rt, "memory");
    let Reply::Listed(listing) = reply else {
        panic!(rt; "no list");
    };
    same(rt, listing.total, total, "incidents");
    same(rt, listing.count(), count, "rows");
    listing
}

fn compare_row(rt: &impl Abort, listing: &Listing, place: usize, number: u64) {
    assert!(rt; place < listing.count());
    same(
        rt,
        (place, listing.row(place).number),
        (place, number),
        "a row",
    );
}

fn compare_rows(rt: &impl Abort, listing: &Listing) {
    for (place, number) in FIRST.iter().enumerate() {
        compare_row(rt, listing, place, *number);
    }
}

#[test]
fn the_first_sixteen_and_none(rt: HostRuntime) {
    let table = eighteen(&rt, rt.alloc());
    let listing = listed(&rt, rt.alloc(), &table, 18, 16);
    compare_rows(&rt, &listing);
    let none = Table::new(rt.alloc());
    let _empty = listed(&rt, rt.alloc(), &none, 0, 0);
}
