//! Tests of the tables that a centre stands on, of what stands beside them and of what operators are answered from them, by their public
//! calls, each library in a module of its own. Only the tests are proved here, over the proved libraries.
#![tactic(auto)]

#[cfg(test)]
mod incidents_tests;
#[cfg(test)]
mod known_accounts_tests;
#[cfg(test)]
mod made;
#[cfg(test)]
mod open_incidents_tests;
#[cfg(test)]
mod operator_queue_tests;
#[cfg(test)]
mod places;
#[cfg(test)]
mod repeat_window_tests;
#[cfg(test)]
mod same;
#[cfg(test)]
mod supervision_tests;
