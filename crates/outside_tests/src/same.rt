// Comparisons: a call of one of these is proved in a moment, where an assertion is proved anew at each place that has it.
use std::fmt::Debug;
use std::process::Abort;

/// What was got is what is wanted.
pub(crate) fn same<T: PartialEq + Debug + Drop>(rt: &impl Abort, got: T, want: T, what: &str) {
    assert_eq!(rt; got, want, "{what}");
}

/// It is so.
pub(crate) fn holds(rt: &impl Abort, is_so: bool, what: &str) {
    assert!(rt; is_so, "{what}");
}
