// Room that the lines of a script are carried out in.
ghost use Rattle.std.specs.Prelude.{◌≡◌, []};

use dc09_frame::FrameBuf;
use desk_wire::Line;

/// Room for the frame of a message, and for the line of a tick's reply. It is lent to one line of a script after another, and what stands
/// in it counts for nothing: made anew for each, it would be zeroed each time. It takes no memory.
#[derive(Drop)]
pub(crate) struct Room {
    pub(crate) frame: FrameBuf,
    pub(crate) line: Line,
}

impl Room {
    /// Room in which nothing stands.
    pub(crate) fn new() -> Room
        ensures { (result.frame ≡ []) × (result.line ≡ []) }
    {
        Room {
            frame: FrameBuf::new(),
            line: Line::new(),
        }
    }
}
