//! Tests of frames, sealed messages, verdicts, a desk's lines, scripts, drills, reports and the rules of sessions by the public calls of
//! their libraries, each in a module of its own. Only the tests are proved here, over the proved libraries.
#![tactic(auto)]

#[cfg(test)]
mod arc_drill_tests;
#[cfg(test)]
mod arc_report_tests;
#[cfg(test)]
mod dc09_crypt_tests;
#[cfg(test)]
mod dc09_frame_tests;
#[cfg(test)]
mod dc09_message_tests;
#[cfg(test)]
mod desk_wire_tests;
#[cfg(test)]
mod panel_core_tests;
#[cfg(test)]
mod rows;
#[cfg(test)]
mod script_lines_tests;
#[cfg(test)]
mod session_rules_tests;
