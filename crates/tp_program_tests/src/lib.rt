//! Tests of the program, by [`tp_program::program`], over real files, loopback sockets and pipes. `play_transcripts` has the others.
//!
//! They stand here, above it, so that no large crate is proved a second time for its tests.
#![tactic(auto)]

#[cfg(test)]
mod check_tests;
#[cfg(test)]
mod command_line_tests;
#[cfg(test)]
mod control_tests;
#[cfg(test)]
mod device_tests;
#[cfg(test)]
mod explained_tests;
#[cfg(test)]
mod image_tests;
#[cfg(test)]
mod parts;
#[cfg(test)]
mod run_tests;
#[cfg(test)]
mod serve_tests;
#[cfg(test)]
mod servers;
#[cfg(test)]
mod socket_file_tests;
#[cfg(test)]
mod steps;
#[cfg(test)]
mod timed_tests;

/// A library has a public item at least: this crate has nothing but tests.
pub fn tests_only() {}
