//! Trying a receiver with a panel: lines on the input say what happens to it, and lines on the output say what it does.
#![tactic(auto)]

mod answer;
mod laws;
mod line;
mod play;
mod run;

pub use arc_data::{Blob, Memory, Token, Txt};
pub use laws::law_one_meaning;
pub use line::PanelLine;
pub use panel_core::is_panel_account;
pub use play::PanelEnd;
pub use run::run_panel;
