//! A crowd over a pool, in place of a shelf.

use crate::waiting::{Seen, Waiting};
use std::alloc::Global;
use std::sync::Wait;
use std::thread::Threads;
use tp_crowd::{Served as Crowd, serve_all};
use tp_disk::{MemDisk, SharedDisk};
use tp_hub::{Answers, Event, Hub};
use tp_meta::Metadata;
use tp_model::{DevId, Geometry, Refusal};
use tp_samples::{MemServed, closed, create_thin, empty, opened_hub};
use tp_served::Served;

/// The disk of a pool of four data blocks with volume 0, closed.
fn disk_of_volume(alloc: Global) -> Result<MemDisk, Refusal> {
    let mut pool = empty(alloc, Geometry::new(128, 16, 2048, 4)?)?;
    create_thin(&mut pool, DevId::new(0))?;
    closed(pool)
}

/// Whether this is the status line of a hub, which ends.
fn has_line(mut hub: Hub<MemServed>, alloc: Global, line: &[u8]) -> bool {
    let mut out = Answers::new(alloc);
    let _ = hub.take(alloc, Event::Status, &mut out);
    let _ = hub.into_pool().into_disk();
    out.bytes() == line
}

/// Serves these clients over a hub: how many came, and how many were refused. It is generic in the disk and the metadata, so that the prover compares no pool that is written out.
fn served<'a, H, D, M>(
    rt: &H,
    hub: Hub<Served<D, M>>,
    clients: Vec<Waiting<'a>>,
) -> ((u8, u64), Hub<Served<D, M>>)
where
    H: Threads + Wait + Sync + Alloc<A = Global>,
    D: SharedDisk + Drop + Send + Sync,
    M: Metadata + Drop + Send + Sync,
{
    let served = serve_all(rt, rt.alloc(), hub, clients.into_iter(), &Seen::nothing());
    let Crowd { hub, came, refused } = served;
    ((came, refused), hub)
}

/// Serves these clients over a pool of four data blocks with volume 0: how many came, how many
/// were refused, and whether the pool's status line is this one then.
pub(crate) fn served_over_pool<H>(
    rt: &H,
    clients: Vec<Waiting<'_>>,
    line: &[u8],
) -> Result<(u8, u64, bool), Refusal>
where
    H: Threads + Wait + Sync + Alloc<A = Global>,
{
    let hub = opened_hub(rt.alloc(), disk_of_volume(rt.alloc())?)?;
    let ((came, refused), hub) = served(rt, hub, clients);
    Ok((came, refused, has_line(hub, rt.alloc(), line)))
}
