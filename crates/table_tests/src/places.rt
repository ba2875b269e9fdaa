// Lists of places, beside what was wanted.
use crate::same::same;
use std::process::Abort;
use supervision::Places;

/// The place that stands at an index, or none from the count on.
pub(crate) fn place_at(places: &Places, i: usize) -> Option<usize> {
    if i < places.count() {
        Some(places.at(i))
    } else {
        None
    }
}

/// Whether these are the places, in this order.
pub(crate) fn compare(rt: &impl Abort, places: &Places, wanted: &str, row: &str) {
    let mut count = 0;
    for word in wanted.split_whitespace() {
        same(rt, place_at(places, count), word.parse().ok(), row);
        count = count.wrapping_add(1);
    }
    same(rt, places.count(), count, row);
}
