//! Tests of random clients, and of files whose length is no image's.
//!
//! They stand here, so that no crate of the product is proved a second time for its tests.
#![tactic(auto)]

#[cfg(test)]
mod files;
#[cfg(test)]
mod frames;
#[cfg(test)]
mod images;
#[cfg(test)]
mod plain;
#[cfg(test)]
mod random;
#[cfg(test)]
mod streams;
#[cfg(test)]
mod told;

/// A library has a public item at least: this crate has nothing but tests.
pub fn tests_only() {}
