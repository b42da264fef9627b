//! Tests of single crates.
//!
//! They stand here, so that none of those crates is proved a second time for its tests.
#![tactic(auto)]

#[cfg(test)]
mod blocks;
#[cfg(test)]
mod cache;
#[cfg(test)]
mod counts;
#[cfg(test)]
mod disk;
#[cfg(test)]
mod file_calls;
#[cfg(test)]
mod files;
#[cfg(test)]
mod layout;
#[cfg(test)]
mod model;
#[cfg(test)]
mod nodes;
#[cfg(test)]
mod plain;
#[cfg(test)]
mod progress;
#[cfg(test)]
mod samples;
#[cfg(test)]
mod session;
#[cfg(test)]
mod super_slots;
#[cfg(test)]
mod table;
#[cfg(test)]
mod wire;

/// A library has a public item at least: this crate has nothing but tests.
pub fn tests_only() {}
