//! Reports of a pool: what `tp_listings` finds in it, printed as `tp_texts` spells it.
#![tactic(auto)]

mod held;
mod printing;
mod report;
mod telling;

pub use held::HoldsMapping;
pub use report::Report;
pub use telling::tell;
