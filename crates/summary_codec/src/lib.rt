//! Summaries as bytes: the one spelling of each summary of a centre in either version, its reader, and the writer of version 2.
#![tactic(auto)]

mod head;
mod reading;
mod spelling;
mod summary;
mod writing;

pub use head::Head;
pub use reading::ReadRow;
pub use spelling::law_one_spelling;
pub use summary::{ReadSummary, summary_read};
pub use writing::{put_count, put_given, put_head, put_incident, put_number, put_row, put_setup};
