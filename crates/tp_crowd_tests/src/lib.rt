//! Tests of clients on threads of their own, over volumes in memory.
#![tactic(auto)]

#[cfg(test)]
mod ahead;
#[cfg(test)]
mod alarm;
#[cfg(test)]
mod control;
#[cfg(test)]
mod crowd;
#[cfg(test)]
mod deltas;
#[cfg(test)]
mod flushes;
#[cfg(test)]
mod long;
#[cfg(test)]
mod loopback;
#[cfg(test)]
mod parts;
#[cfg(test)]
mod pauses;
#[cfg(test)]
mod pools;
#[cfg(test)]
mod served;
#[cfg(test)]
mod statuses;
#[cfg(test)]
mod staying;
#[cfg(test)]
mod talk;
#[cfg(test)]
mod turns;
#[cfg(test)]
mod unasked;
#[cfg(test)]
mod waiting;

/// A library has a public item at least: this crate has nothing but tests.
pub fn tests_only() {}
