// How a desk session ends.
use centre_core::Stop;

/// How a desk session ended.
#[derive(Clone, Copy, Debug, PartialEq, Eq)]
pub enum DeskEnd {
    /// The operator ended it by `quit`, and was answered.
    Quit,
    /// The input was read to its end, and each line of it has its answer.
    InputEnded,
    /// A read failed. What it cut short is not carried out.
    ReadFault,
    /// A write failed within the last answer. Its entry stands, where it has one.
    WriteFault,
    /// 1,099,511,627,776 bytes (2^40) were taken, which is the limit of a session. A line that it cut short is not carried out.
    Spent,
    /// The hall did not take an event. That line has no answer.
    Stopped(Stop),
}
