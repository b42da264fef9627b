//! Tests of the store of nodes, the trees and the mapping.
//!
//! They stand here, above all of them, so that no large crate is proved a second time for its tests.
#![tactic(auto)]

#[cfg(test)]
mod commands;
#[cfg(test)]
mod forest;
#[cfg(test)]
mod guarded;
#[cfg(test)]
mod meta;
#[cfg(test)]
mod tm;

/// A library has a public item at least: this crate has nothing but tests.
pub fn tests_only() {}
