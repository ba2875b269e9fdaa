//! Civil time: the stamps of sealed messages, time zones by rules of POSIX's variable TZ, and local weekdays and minutes in them.
//!
//! A moment is a number of seconds since the beginning of 1970 in GMT, through the last second of the year 9999. A rule is read
//! once, and a zone keeps what it says. No call takes memory.
#![tactic(auto)]

pub mod laws;
mod place;
mod spans;
mod stamp;
mod zone;

pub use place::Local;
pub use spans::stays_until;
pub use stamp::{fresh, read_stamp, stamp_of};
pub use zone::{Zone, local};
