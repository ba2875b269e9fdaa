//! Tests of sessions of lines, of desks, of both kinds, of scripts, of panels and of a second centre by their public calls, each in a module of its own.
//! Only the tests are proved here, over the proved libraries.
#![tactic(auto)]

#[cfg(test)]
mod arc_panel_tests;
#[cfg(test)]
mod arc_script_tests;
#[cfg(test)]
mod arc_sessions_tests;
#[cfg(test)]
mod desk_session_tests;
#[cfg(test)]
mod line_session_tests;
#[cfg(test)]
mod mirror_centre_tests;
#[cfg(test)]
mod same;
#[cfg(test)]
mod told;
#[cfg(test)]
mod udp_line_tests;
