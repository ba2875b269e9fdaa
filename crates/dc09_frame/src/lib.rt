//! Frames of ANSI/SIA DC-09: the check, the cuts of a stream, the header of a body, and the replies that echo one.
#![tactic(auto)]

mod checksum;
mod cut;
mod cutter;
mod echo;
mod frame_buf;
mod header;
mod laws;
mod limits;
mod reading;
mod tables;

pub use checksum::check;
pub use cut::Cut;
pub use cutter::Cutter;
pub use echo::{append_fields, write_echo, write_frame, write_nak};
pub use frame_buf::FrameBuf;
pub use header::{Echo, Header};
pub use laws::{
    law_bodies_are_fed, law_check_divides, law_frames_are_cut_again, law_read_is_spelled,
    law_spelled_is_read,
};
pub use limits::{BODY_LIMIT, FRAME_LIMIT, PIECE_LIMIT};
pub use reading::{Alphabet, after_byte, run_at};
