// How a session over a mailbox ends.
use centre_core::Stop;

/// How a session over a mailbox ended.
#[derive(Clone, Copy, Debug, PartialEq, Eq)]
pub enum MailEnd {
    /// As many datagrams as were asked for were received and answered.
    Quota,
    /// No more datagrams come, and each that came was answered.
    Ended,
    /// No datagram could be received.
    ReadFault,
    /// The reply to the last datagram could not be sent. Its entries stand.
    WriteFault,
    /// The hall did not take an event, or memory was wanted. The last datagram has no reply; its earlier entries stand.
    Stopped(Stop),
}
