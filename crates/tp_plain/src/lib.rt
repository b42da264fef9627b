//! The definitions that can be computed, as plain slow programs, and worked examples of the definitions.
//!
//! Each program's contract is the definition itself, over every plain pool of which its arguments are true. They
//! are of use to those who want to try the definitions on values, and to tests: none is part of the product.
#![tactic(auto)]

pub mod examples;
mod requests;
mod room;
mod slots;
mod status;
mod tests_of_calls;

pub use requests::{Request, covers, form_error, touches};
pub use room::{Change, need};
pub use slots::{Slot, is_exclusive, used};
pub use status::{pool_line, volume_line};
pub use tests_of_calls::{Asked, Facts, refusal_of};
pub use tp_msg::{PoolStatus, VolumeStatus};
