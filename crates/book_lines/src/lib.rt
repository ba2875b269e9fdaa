//! The lines of a station's book: what a record was, or what a summary holds, in words or in fields, and which records a
//! book is asked for.
#![tactic(auto)]

mod choice;
mod clock;
mod fields;
pub mod laws;
mod names;
mod options;
mod page;
mod summary;
mod word;
mod words;
mod writing;

pub use choice::{Verdict, choose};
pub use clock::{Clock, Offset};
pub use options::{Options, Place};
pub use page::Page;
pub use summary::{Held, put_summary};
pub use word::Word;
pub use writing::put_line;
