//! Which sizes a pool gets that is to hold so much: its data, and so many volumes of one size.
//!
//! The metadata are as many blocks as the bound of `tp_image` asks for, and no more.
#![tactic(auto)]

mod laws;
mod numbers;
mod sizing;
mod users;
mod wanted;

pub use laws::sizes_are_determined;
pub use sizing::sizes_for;
pub use users::{volumes_have_room, what_fits_is_taken};
pub use wanted::{Unfit, Wanted};
