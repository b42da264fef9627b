//! What a cache was at some moment, for contracts alone.
ghost use Rattle.std.specs.Prelude.{◌≡◌};
ghost use Rattle.std.specs.Borrow.{ftrue};
ghost use Rattle.tp_cache.specs.Table.{Held};

use crate::cache::NodeCache;
use std::marker::{Model, PhantomData};
use tp_disk::Disk;

/// How the state of a cache, as contracts see it, is read from a value of type `X`.
pub trait Remembers<X> {
    ghost held: { X → Held };
}

/// The state of a cache at an earlier moment, for contracts alone. A value of it takes no memory.
#[derive(Drop)]
pub struct Past {
    marker: PhantomData<()>,
    pub ghost held: { Held },
}

impl Model for Past {
    ghost also_owns = { λ _. ftrue };
}

// A `Past` has no data, so threads may share it and hand it on.
unsafe impl Send for Past {}

unsafe impl Sync for Past {}

struct Caches<D> {
    marker: PhantomData<D>,
}

impl<D: Disk> Remembers<NodeCache<D>> for Caches<D> {
    ghost held = { λ cache. cache.core };
}

impl Past {
    pub fn of<X, M: Remembers<X>>(x: &X) -> Past
        ensures { result.held ≡ M.held x.now }
    {
        let _ = x;
        Past {
            marker: PhantomData,
        }
    }

    /// Remembers the state that the cache has at this call.
    pub fn now<D: Disk>(cache: &NodeCache<D>) -> Past
        ensures { result.held ≡ cache.now.core }
    {
        Past::of::<NodeCache<D>, Caches<D>>(cache)
    }
}
