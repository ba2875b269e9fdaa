//! The desk session: what an operator types is read line by line, submitted to a hall where it is a command, and answered by one
//! line each.
#![tactic(auto)]

mod answer;
mod ask;
mod desk;
mod desk_end;
mod desk_state;
mod event;
mod laws;
mod lines;
mod say;

pub use desk::serve_desk;
pub use desk_end::DeskEnd;
pub use desk_state::DeskState;
pub use laws::law_sessions_join;
