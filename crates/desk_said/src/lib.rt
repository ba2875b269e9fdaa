//! What the lines say that a desk answers, read back from the bytes.
#![tactic(auto)]

mod forms;
mod listing;
mod names;
mod reading;
mod rows;
mod said;
mod shown;

pub use arc_data::{Class, Row, Step, Txt, View};
pub use desk_wire::{number, step};
pub use names::{class, count};
pub use reading::read;
pub use rows::Rows;
pub use said::Said;
