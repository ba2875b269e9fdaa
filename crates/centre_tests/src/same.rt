// Comparisons. Each assert is proved here once, and a test calls it.
use std::fmt::Debug;
use std::process::Abort;

/// What was got is what was wanted.
pub(crate) fn same<T: PartialEq + Debug + Drop>(rt: &impl Abort, got: T, want: T, what: &str) {
    assert_eq!(rt; got, want, "{what}");
}

/// It is so.
pub(crate) fn holds(rt: &impl Abort, is_so: bool, what: &str) {
    assert!(rt; is_so, "{what}");
}
