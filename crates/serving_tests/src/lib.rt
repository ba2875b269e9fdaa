//! Tests of the gate, of workers and of all of them beside each other by their public calls, each in a module of its own. Only the tests
//! are proved here, over the proved libraries.
#![tactic(auto)]

#[cfg(test)]
mod arc_server_tests;
#[cfg(test)]
mod arc_serving_tests;
#[cfg(test)]
mod arc_workers_tests;
#[cfg(test)]
mod doors;
#[cfg(test)]
mod group_gate_tests;
#[cfg(test)]
mod line_gate_tests;
#[cfg(test)]
mod same;
#[cfg(test)]
mod stores;
