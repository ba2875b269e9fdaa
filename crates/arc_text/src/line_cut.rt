// What a line is told to be.

/// Whether a line is within the limit of its cutter. Its bytes are counted without the line feed that ends it, and without the
/// one carriage return before that.
#[derive(Clone, Copy, Debug, PartialEq, Eq)]
pub enum LineCut {
    Whole,
    /// It has more bytes than the limit.
    TooLong,
}
