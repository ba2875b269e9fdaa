//! Events as bytes: the one spelling of each event that a journal keeps, in the version that is written, and its reading in both versions.
#![tactic(auto)]

mod reading;
mod writing;

pub use reading::{
    account_at, act_at, byte_at, content_at, decode, line_at, operator_at, piece_at, receiver_at,
    setup_at, step_at, text_at, token_at, u16_at, u32_at, u64_at, via_of_one,
};
pub use writing::{byte_of_outcome, byte_of_token, encode, put, put_byte, put_text};
