// What all tests here compare by. Each comparison is proved once, here, so that a test costs little more than its calls.
use std::alloc::Global;
use std::fmt::Debug;
use std::process::Abort;
use std::test::Fail;

/// What makes text of the input of a row.
pub(crate) trait Tells {
    /// Puts behind what is told what the calls give for this input.
    fn tell(&mut self, alloc: Global, input: &str, told: &mut Vec<u8>) -> Result<(), Fail>;
}

/// Compares what is told of the input of each row with what the row wants. A row is what it wants, a `;` and the input; a line without a
/// `;` is a remark, which begins with `#`.
pub(crate) fn compare<T: Tells>(
    rt: &impl Abort,
    alloc: Global,
    rows: &str,
    teller: &mut T,
) -> Result<(), Fail> {
    for row in rows.lines() {
        match row.split_once(';') {
            Some((want, input)) => compare_row(rt, alloc, want, input, teller)?,
            None => holds(rt, row.starts_with('#'), row),
        }
    }
    Ok(())
}

fn compare_row<T: Tells>(
    rt: &impl Abort,
    alloc: Global,
    want: &str,
    input: &str,
    teller: &mut T,
) -> Result<(), Fail> {
    let mut told = Vec::new(alloc);
    let end = teller.tell(alloc, input, &mut told);
    same_bytes(rt, &told, want.as_bytes(), input);
    drop(told);
    end
}

/// The bytes are those that are wanted.
pub(crate) fn same_bytes(rt: &impl Abort, got: &[u8], want: &[u8], what: &str) {
    assert_eq!(rt; got, want, "{what}");
}

/// The value is the one that is wanted.
pub(crate) fn same<T: PartialEq + Debug>(rt: &impl Abort, got: &T, want: &T, what: &str) {
    assert_eq!(rt; got, want, "{what}");
}

/// This holds.
pub(crate) fn holds(rt: &impl Abort, it: bool, what: &str) {
    assert!(rt; it, "{what}");
}
