// What holds of every body, header and frame.
ghost use Rattle.dc09_frame.specs.Check.{CheckDivides};
ghost use Rattle.dc09_frame.specs.Cutting.{BodiesAreFed};
ghost use Rattle.dc09_frame.specs.Frames.{FramesAreCutAgain};
ghost use Rattle.dc09_frame.specs.Headers.{ReadIsSpelled, SpelledIsRead};

/// The check is the remainder of a division: the bits times x^16 are a multiple of the polynomial, and the rest of 16
/// places that the check spells.
pub fn law_check_divides()
    ensures { CheckDivides }
{}

/// A header that is read is spelled so at the front of its body, and its fields are in their ranges.
pub fn law_read_is_spelled()
    ensures { ReadIsSpelled }
{}

/// A header that is spelled is read again, whatever follows it.
pub fn law_spelled_is_read()
    ensures { SpelledIsRead }
{}

/// The frame of a body is cut as the one whole piece of that body, whatever follows it.
pub fn law_frames_are_cut_again()
    ensures { FramesAreCutAgain }
{}

/// What a cutter took adds just the body that it told of to the bodies of the stream, and what it tells of is a body.
pub fn law_bodies_are_fed()
    ensures { BodiesAreFed }
{}
