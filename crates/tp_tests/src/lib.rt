//! Tests of the pool on caches, and of the pool's users.
//!
//! They stand here, above all of them, so that no large crate is proved a second time for its tests.
#![tactic(auto)]

#[cfg(test)]
mod listing;
#[cfg(test)]
mod parts;
#[cfg(test)]
mod pools;
#[cfg(test)]
mod sessions;
#[cfg(test)]
mod stops;
#[cfg(test)]
mod tallies;
#[cfg(test)]
mod texts;
#[cfg(test)]
mod users;

/// A library has a public item at least: this crate has nothing but tests.
pub fn tests_only() {}
