//! What a pool with the contents of a commit shows: definitions, and laws about them alone.
//!
//! `specs/Shown` says in words of lists and images what reads give and what writes leave; `specs/Laws` states what that is for the
//! plain pool. None of it is about code.
#![tactic(auto)]

mod laws;

pub use laws::{
    bounds_are_of_lists, calls_are_of_lists, contents_are_of_pools, stops_are_of_lists,
    tests_are_of_lists,
};
