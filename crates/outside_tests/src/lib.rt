//! Tests of what the station reads and writes, of its doors and of its journal by their public calls, each in a module of its own. Only the
//! tests are proved here, over the proved libraries.
#![tactic(auto)]

#[cfg(test)]
mod arc_doors_tests;
#[cfg(test)]
mod arc_io_tests;
#[cfg(test)]
mod disk_journal_tests;
#[cfg(test)]
mod given_tests;
#[cfg(test)]
mod rows;
#[cfg(test)]
mod same;
#[cfg(test)]
mod turning_tests;
