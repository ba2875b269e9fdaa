//! Tests of the screen's libraries by their public calls: what a desk's lines say, sittings, and
//! what a terminal is sent. Only the tests are proved here, over the proved libraries.
#![tactic(auto)]

#[cfg(test)]
mod page_tests;
#[cfg(test)]
mod said_tests;
#[cfg(test)]
mod sitting_tests;
