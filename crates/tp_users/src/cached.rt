//! A user of a cache: code that knows nothing of one.
ghost use Rattle.std.specs.Prelude.{◌≡◌, ◌+◌, OnOk};
ghost use Rattle.tp_cache.specs.Table.{Since};

use std::marker::Brand;
use tp_cache::{Life, NodeCache, Start};
use tp_disk::{Disk, Fault};

// Two flushes of any disk: code that knows nothing of a cache.
fn flush_twice<D: Disk>(disk: &mut D) -> Result<(), Fault>
    ensures size { (D.state disk.new).size ≡ (D.state disk.old).size }
    ensures flushed { OnOk result ((D.state disk.new).flushes ≡ (D.state disk.old).flushes + 2) }
{
    disk.flush()?;
    disk.flush()
}

fn run<D: Disk, K: Start>(cache: NodeCache<D>) -> NodeCache<D>
    requires { K.start ≡ cache.core }
    ensures { Since K.start result.core }
{
    let mut life = Life::<D, K>::begin(cache);
    let _ = flush_twice(&mut life);
    life.end()
}

/// That code on a cache: time went on from the cache before to the cache after, though the code's own clauses do not say so.
pub fn flush_cache_twice<D: Disk>(cache: NodeCache<D>) -> NodeCache<D>
    ensures { Since cache.core result.core }
{
    run::<D, Brand>(cache)
}
