// The moment at which runs begin.

/// 2001-09-09, 01:46:40 GMT, a Sunday.
pub const BEGIN: u64 = 1_000_000_000;
