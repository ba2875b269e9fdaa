// How the answering of asks ended.
use centre_core::Stop;

/// How the answering of the asks of an input ended.
#[derive(Clone, Copy, Debug, PartialEq, Eq)]
pub enum FeedEnd {
    /// The input ended, and each ask was answered.
    Done,
    /// A read failed.
    ReadFault,
    /// A write failed within the answer of the last ask.
    WriteFault,
    /// 2^40 bytes of the input were read.
    Spent,
    /// What stands behind so many asks is none, or the input cut it short.
    Strange { after: u64 },
    /// The last ask has no answer: the disk has failed, or memory was wanted.
    Stopped(Stop),
}
