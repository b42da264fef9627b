//! How far long work is: the bytes that it read and wrote, told from time to time to who waits for it.
#![tactic(auto)]

mod followed;
mod progress;
mod teller;

pub use followed::Followed;
pub use progress::Progress;
pub use teller::Teller;
