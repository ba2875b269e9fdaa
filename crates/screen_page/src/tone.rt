// Colours.

/// The colour of a row. What it says is said by a letter of the row too.
#[derive(Clone, Copy, PartialEq, Eq)]
pub enum Tone {
    Plainly,
    Heading,
    /// An incident of priority 1, or a lost connection.
    Grave,
    /// An incident of priority 2.
    Urgent,
    /// An incident of priority 3.
    Lesser,
    /// The operator's own incident.
    Mine,
    Faint,
}
