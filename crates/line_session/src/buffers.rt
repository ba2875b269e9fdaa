// Room for the frames that a line answers.
use dc09_frame::FrameBuf;

/// Room for the text of a sealed message, and for the reply to a frame. It takes no memory.
#[derive(Drop)]
pub(crate) struct Buffers {
    pub(crate) text: FrameBuf,
    pub(crate) reply: FrameBuf,
}
