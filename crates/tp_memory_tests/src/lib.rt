//! Tests of calls that take memory. Each is true whether one allocation is refused or none, and prints what became of the call: with none refused it was done.
//!
//! `tools/refused_memory` runs each of them again and again, with one allocation more refused each time.
#![tactic(auto)]

#[cfg(test)]
mod alone_tests;
#[cfg(test)]
mod ask_tests;
#[cfg(test)]
mod beside;
#[cfg(test)]
mod command_tests;
#[cfg(test)]
mod commands;
#[cfg(test)]
mod crowd_tests;
#[cfg(test)]
mod disks;
#[cfg(test)]
mod guests;
#[cfg(test)]
mod outcome;
#[cfg(test)]
mod pools;
#[cfg(test)]
mod server_tests;
#[cfg(test)]
mod servers;
#[cfg(test)]
mod talk;

/// A library has a public item at least: this crate has nothing but tests.
pub fn tests_only() {}
