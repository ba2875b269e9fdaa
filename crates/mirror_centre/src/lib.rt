//! A second centre that follows another one and can take over: what it asks and is answered, and how it takes in what it is answered; and
//! both over a port, where the one answers asks and the other one asks.
#![tactic(auto)]

mod answering;
mod asking;
mod feed;
mod feed_end;
mod follow_end;
mod intake;
mod laws;
mod messages;
mod mirror;

pub use answering::answer;
pub use asking::follow;
pub use feed::serve_feed;
pub use feed_end::FeedEnd;
pub use follow_end::FollowEnd;
pub use laws::law_mirror;
pub use mirror::{Mirror, Took};
