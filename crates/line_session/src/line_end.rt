// How a line session ends.
use centre_core::Stop;

/// How a line session ended.
#[derive(Clone, Copy, Debug, PartialEq, Eq)]
pub enum LineEnd {
    /// The input was read to its end, and each whole piece of it has its answer.
    InputEnded,
    /// A read failed.
    ReadFault,
    /// A write failed within the last reply. Its entry stands, where it has one.
    WriteFault,
    /// 1,099,511,627,776 bytes (2^40) were taken, which is the limit of a session.
    Spent,
    /// The hall did not take an event, or memory was wanted for a message. That frame has no reply.
    Stopped(Stop),
}
