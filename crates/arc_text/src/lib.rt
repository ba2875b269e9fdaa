//! Short texts, the numbers that texts spell, the lines of a stream, and counted comparisons of pairs of numbers.
#![tactic(auto)]

mod hexadecimal;
mod laws;
mod line_cut;
mod line_cutter;
mod number;
mod pairs;
mod steps;

pub use arc_data::Txt;
pub use hexadecimal::hex_word;
pub use laws::law_steps_are_digits;
pub use line_cut::LineCut;
pub use line_cutter::LineCutter;
pub use number::dec;
pub use pairs::order;
pub use steps::Steps;
