// Why a text is no setup.

/// What is wrong with a line of a setup text.
#[derive(Clone, Copy, Debug, PartialEq, Eq)]
pub enum LineKind {
    /// The line has more than 1,024 bytes or is of no known form.
    Form,
    /// The text that names the zone of an account is no rule of POSIX's variable TZ.
    BadZone,
    /// The line names an account that no earlier line declares.
    NoAccount,
}

/// Why a text is no setup. Lines are numbered from 1, skipped ones included.
#[derive(Clone, Copy, Debug, PartialEq, Eq)]
pub enum SetupFault {
    /// The text has more than 4,194,304 bytes.
    TooLarge,
    /// The line is wrong in itself.
    BadLine { line: u64, kind: LineKind },
    /// The line declares again what an earlier line declares.
    TwoSame { line: u64, first: u64 },
    /// The line would be one more than there may be.
    TooMany { line: u64, limit: u64 },
    /// Want of memory. It says nothing of the text.
    Memory,
}
