//! What backup tools and administrators ask of a pool: which blocks of a volume are mapped, where two volumes may differ, what each volume has of the pool, and which data
//! blocks are free. Each is exact, in words of the plain pool, and is made of calls that write nothing.
#![tactic(auto)]

mod deltas;
mod extent;
mod extents;
mod laws;
mod looking;
mod maps;
mod owners;
mod pages;
mod unowned;
mod usage;

pub use deltas::delta;
pub use extent::{Extent, Usage};
pub use extents::add_run;
pub use laws::{deltas_restore, pages_are_exact, pages_join};
pub use maps::map;
pub use pages::{MOST_RUNS, Page, Runs, page_of};
pub use unowned::free;
pub use usage::usages;
