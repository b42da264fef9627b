//! The messages to a pool, read from lines of text, and its status lines, written into buffers.
//!
//! The messages are those of the kernel's thin-provisioning document (`thin-provisioning.rst`, "Messages"), in a profile of this
//! project's own, and `grow`, which is its own; the status lines are in the manner of its "Status".
#![tactic(auto)]

mod managed;
mod message;
mod numeral;
mod reading;
mod status;

pub use managed::{Managed, order};
pub use message::Message;
pub use reading::read_message;
pub use status::{LineBuffer, PoolStatus, VolumeStatus, print_status, print_thin};
