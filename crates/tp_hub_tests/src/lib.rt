//! Tests of the hub and of lines, over volumes in memory.
#![tactic(auto)]

#[cfg(test)]
mod carried;
#[cfg(test)]
mod clones;
#[cfg(test)]
mod flushes;
#[cfg(test)]
mod lines;
#[cfg(test)]
mod pieces;
#[cfg(test)]
mod resumed;
#[cfg(test)]
mod script;
#[cfg(test)]
mod statuses;
#[cfg(test)]
mod talk;

/// A library has a public item at least: this crate has nothing but tests.
pub fn tests_only() {}
