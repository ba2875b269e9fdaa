//! Laws over all histories: what holds of a one-thread centre from its definitions alone, whatever it is told. A law is a
//! function without parameters, and its contract says the law.
#![tactic(auto)]

mod closings;
mod holders;
mod numbers;
mod repeats;
mod restarts;
mod sendings;
mod summaries;

pub use closings::law_closing;
pub use holders::law_holder;
pub use numbers::law_numbers;
pub use repeats::law_repeats;
pub use restarts::law_restart;
pub use sendings::law_once;
pub use summaries::law_summary;
