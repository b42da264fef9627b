//! Why a task was refused: the refusal's number, what is known of its cause, and both in words.
#![tactic(auto)]

mod explaining;
mod failure;

pub use explaining::Explanation;
pub use failure::{Cause, Failure, because};
