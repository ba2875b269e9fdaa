//! What a summary of the centre is as bytes, which of them are a spelling, and what stays so of the summaries of histories: definitions,
//! and laws over all histories. A law is a function without parameters, and its contract says the law.
#![tactic(auto)]

mod one_alarm;
mod stays;

pub use one_alarm::law_one_alarm_is_written;
pub use stays::{
    law_acts_stay, law_counts_stay, law_incidents_stay, law_messages_stay, law_moments_stay,
    law_nothing_is_spelled, law_rows_ascend, law_setups_stay, law_short_ones_are_few,
    law_summaries_are_spelled, law_summaries_compose,
};
