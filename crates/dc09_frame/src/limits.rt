// How long a frame and its parts may be (DC-09, the frame).

/// The most bytes of a body: a frame tells its length by three hexadecimal digits.
pub const BODY_LIMIT: usize = 4095;

/// The most bytes of a piece that may be whole: eight bytes stand before the body.
pub const PIECE_LIMIT: usize = 4103;

/// The most bytes of a frame: a line feed stands before the piece, and a carriage return behind it.
pub const FRAME_LIMIT: usize = 4105;
