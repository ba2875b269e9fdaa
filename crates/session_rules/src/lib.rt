//! What sessions of all kinds share: a session is a list of turns over what a hall and a port told. Definitions, and the
//! lemmas that put one session behind another.
#![tactic(auto)]

mod input;

pub use input::{PIECE, read_piece, room_behind, up_to};
