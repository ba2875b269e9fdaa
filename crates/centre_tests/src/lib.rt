//! Tests of the centre and of its store by their public calls, each in a module of its own. Only the tests are proved here, over the
//! proved libraries.
#![tactic(auto)]

#[cfg(test)]
mod account_numbers;
#[cfg(test)]
mod centre_core_tests;
#[cfg(test)]
mod centre_store_tests;
#[cfg(test)]
mod same;
