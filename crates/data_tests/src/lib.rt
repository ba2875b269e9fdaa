//! Tests by their public calls of the plain data and its texts, of what messages report, of plans, setups and event spellings, of civil
//! time, opening hours and zones, and of the cipher, each library in a module of its own. Only the tests are proved here, over the proved
//! libraries.
#![tactic(auto)]

#[cfg(test)]
mod accounts_tests;
#[cfg(test)]
mod action_plans_tests;
#[cfg(test)]
mod aes_chain_tests;
#[cfg(test)]
mod alarm_signal_tests;
#[cfg(test)]
mod arc_data_tests;
#[cfg(test)]
mod arc_text_tests;
#[cfg(test)]
mod checks;
#[cfg(test)]
mod civil_time_tests;
#[cfg(test)]
mod contact_id_tests;
#[cfg(test)]
mod content_signals_tests;
#[cfg(test)]
mod event_codec_tests;
#[cfg(test)]
mod open_schedules_tests;
#[cfg(test)]
mod sia_codes_tests;
#[cfg(test)]
mod weeks;
#[cfg(test)]
mod zones_tests;
