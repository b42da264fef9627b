//! Listeners of loopback, and crowds over shelves, which are made and let go here: a test has only what is told of them.

use crate::waiting::{Seen, Waiting};
use std::alloc::Global;
use std::io;
use std::net::{Net, SocketAddr, TcpListener, TcpStream};
use std::sync::Wait;
use std::thread::Threads;
use std::time::Clock;
use tp_crowd::{Served, serve_all, serve_listener};
use tp_hub::Hub;
use tp_model::Refusal;
use tp_shelf::{Shelf, blank_shelf, shelf_of_readers, staged_shelf};

/// A listener, and its address.
pub(crate) fn listening<H>(rt: &H) -> io::Result<(TcpListener, SocketAddr)>
where
    H: Net<Listener = TcpListener, Stream = TcpStream>,
{
    let listener = TcpListener::bind(rt, "127.0.0.1:0")?;
    let address = listener.local_addr()?;
    Ok((listener, address))
}

/// How many clients came, how many were refused, and how many volumes are held when all are gone.
pub(crate) type Left = (u8, u64, usize);

fn left_of(served: Served<Shelf>) -> Left {
    let Served { hub, came, refused } = served;
    (came, refused, hub.into_pool().held())
}

/// Serves so many clients of a listener over a shelf that has nothing.
pub(crate) fn served<H>(rt: &H, listener: TcpListener, count: u8) -> Result<Left, Refusal>
where
    H: Threads + Wait + Clock + Sync + Alloc<A = Global>,
{
    let hub = Hub::new(blank_shelf(rt.alloc())?);
    let alarm = Seen::nothing();
    Ok(left_of(serve_listener(rt, rt.alloc(), hub, listener, count, &alarm)))
}

/// The first bytes of a shelf's volumes, and whether its shared reads came together.
pub(crate) type Kept = ((Option<u8>, Option<u8>), bool);

fn kept_of(served: Served<Shelf>) -> (Left, Kept) {
    let Served { hub, came, refused } = served;
    let shelf = hub.into_pool();
    let left = (came, refused, shelf.held());
    (left, (shelf.first_bytes(), shelf.read_together()))
}

/// Serves these clients over a shelf that has nothing, whose shared reads each wait until so many have come.
pub(crate) fn served_all<H>(
    rt: &H,
    readers: u64,
    clients: Vec<Waiting<'_>>,
) -> Result<(Left, Kept), Refusal>
where
    H: Threads + Wait + Sync + Alloc<A = Global>,
{
    let hub = Hub::new(shelf_of_readers(rt.alloc(), readers)?);
    let alarm = Seen::nothing();
    Ok(kept_of(serve_all(rt, rt.alloc(), hub, clients.into_iter(), &alarm)))
}

/// How many syncs there were between parts of flushes, how many shared reads came to one, and whether one waited in vain.
pub(crate) type Synced = (u64, u64, bool);

/// Serves these clients over a shelf whose flushes have two parts and a last one, between which each sync waits for a read.
pub(crate) fn served_in_parts<H>(rt: &H, clients: Vec<Waiting<'_>>) -> Result<Synced, Refusal>
where
    H: Threads + Wait + Sync + Alloc<A = Global>,
{
    let hub = Hub::new(staged_shelf(rt.alloc(), 2, true)?);
    let alarm = Seen::nothing();
    let Served {
        hub,
        came: _,
        refused: _,
    } = serve_all(rt, rt.alloc(), hub, clients.into_iter(), &alarm);
    Ok(hub.into_pool().synced())
}
