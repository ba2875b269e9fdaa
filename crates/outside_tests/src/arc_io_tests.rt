// What no clause says of the outside: that calls succeed, and examples with values worked out by hand.
mod adapters;
mod disk;
mod memory;
mod whole;

use crate::same::same;
use arc_io::Failed;
use std::alloc::Global;
use std::env;
use std::process::Abort;

// Both sides of the mark in a row.
fn parted<'a>(rt: &impl Abort, row: &'a str, mark: char) -> (&'a str, &'a str) {
    row.split_once(mark).expect(rt, row)
}

// Both sides of the first space; nothing is behind a space that isn't there.
fn spaced(row: &str) -> (&str, &str) {
    row.split_once(' ').unwrap_or((row, ""))
}

fn number(rt: &impl Abort, word: &str) -> u64 {
    word.parse().expect(rt, word)
}

// The numbers of a row, as `3 2`.
fn numbers(rt: &impl Abort, alloc: Global, words: &str) -> Vec<u64> {
    let mut numbers = Vec::new(alloc);
    for word in words.split_whitespace() {
        numbers.push(number(rt, word)).expect(rt, "memory");
    }
    numbers
}

// A buffer of three bytes, and what stands in it where nothing was read.
const UNREAD: [u8; 3] = *b"---";

// Compares the answer to a call and the buffer that it was given with what a row says: `4`, `3 abc`, or `failed`, which is no number.
fn compare_answer(
    rt: &impl Abort,
    answer: Result<u64, Failed>,
    buf: [u8; 3],
    want: &str,
    row: &str,
) {
    let (count, bytes) = want.split_once(' ').unwrap_or((want, "---"));
    let count = count.parse().or(Err(Failed));
    same(rt, (answer, buf.as_slice()), (count, bytes.as_bytes()), row);
}

// A path among the temporary ones, which no other run of the tests uses.
fn temporary_path(rt: &impl Abort, host: HostRuntime, name: &str) -> String {
    let number = std::process::id(host.process());
    let folder = env::temp_dir(&host).expect(rt, "a folder for temporary files");
    let folder = folder.to_str().expect(rt, "a folder whose name is text");
    format!(in host.alloc(); "{folder}/arc_io_{name}_{number}").expect(rt, "memory")
}
