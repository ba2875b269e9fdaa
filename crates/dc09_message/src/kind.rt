// What a token announces.
use arc_data::Token;

/// The kind of a message, by its token.
#[derive(Clone, Copy, Debug)]
pub enum MessageKind {
    /// `NULL`: a sign of life (DC-09, the supervision message).
    Heartbeat,
    /// A numbered message, whose data has signals.
    Report(Token),
}
