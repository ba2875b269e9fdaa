// Parts of the rows of tables.
use std::alloc::Global;
use std::process::Abort;

/// What stands before the mark and behind it.
pub(crate) fn halves<'a>(rt: &impl Abort, row: &'a str, mark: char) -> (&'a str, &'a str) {
    row.split_once(mark).expect(rt, "a row")
}

/// The numbers, spaces between them.
pub(crate) fn numbers(rt: &impl Abort, alloc: Global, words: &str) -> Vec<u64> {
    let mut numbers = Vec::new(alloc);
    for word in words.split_whitespace() {
        let number = word.parse().expect(rt, "a number");
        numbers.push(number).expect(rt, "memory");
    }
    numbers
}
