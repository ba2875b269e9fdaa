// How the following of another centre ended.
use centre_core::Stop;

/// How the following of another centre ended.
#[derive(Clone, Copy, Debug, PartialEq, Eq)]
pub enum FollowEnd {
    /// The other centre has no more.
    Done,
    /// The other centre has no record of what comes next here: its summary has so many recorded events, and so many are recorded here.
    Behind { have: u64, count: u64 },
    /// What stands behind so many answers is none, or the input cut it short; or no event goes on with the record that it brings.
    Strange { after: u64 },
    /// A read failed.
    ReadFault,
    /// A write failed within the last ask.
    WriteFault,
    /// 2^40 bytes of the input were read.
    Spent,
    /// The store stopped at the last answer, or memory was wanted.
    Stopped(Stop),
}
