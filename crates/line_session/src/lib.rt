//! The line session (DC-09, the receiver's side): what a panel sends is cut into frames, and each whole one is judged, submitted to
//! a hall where it brings an event, and answered: one after another, or all that one read brings together.
#![tactic(auto)]

mod answer;
mod buffers;
mod due;
mod group_line;
mod laws;
mod line;
mod line_end;
mod line_state;
mod pieces;
mod reply;
mod report;
mod waiting;

pub use group_line::serve_group;
pub use laws::law_sessions_join;
pub use line::serve_line;
pub use line_end::LineEnd;
pub use line_state::LineState;
