//! Clients of a TCP address over the pool of an image, which is then closed, and beside them control lines from another address.

ghost use Rattle.std.specs.Prelude.{◌≡◌, ◌≤◌, IfErr, IfOk, is_some};
ghost use Rattle.std.specs.FinMap.{empty};
ghost use Rattle.tp_lock.specs.Locked.{CameOf};
ghost use Rattle.tp_disk.specs.HandedOut.{IsHandedOut};
ghost use Rattle.tp_holders.specs.Holders.{holds_of};
ghost use Rattle.tp_served.specs.Served.{cached};
ghost use Rattle.tp_failures.specs.Failures.{number_of};
ghost use Rattle.tp_commands.specs.Serving.{ServesImage, ServesOn, told_of_clients};
ghost use Rattle.tp_program.specs.Living.{ServesPool};

use crate::moment::Moment;
use std::alloc::Global;
use std::io::Write;
use std::net::{Net, TcpListener, TcpStream};
use std::sync::{Mutex, Wait};
use std::thread::Threads;
use std::time::Clock;
use tp_cache::ReadCache;
use tp_commands::closing::{behind, end_hub};
use tp_commands::opening::open_pool;
use tp_crowd::{Alarm, serve_listener, serve_listener_with_control};
use tp_disk::{SharedDisk, TellsTrouble};
use tp_failures::{Cause, Failure};
use tp_hub::Hub;
use tp_images::Images;
use tp_meta::{Meta, Metadata};
use tp_model::Refusal;
use tp_served::Served;

/// Where clients come, and where those come who send control lines.
#[derive(Drop)]
struct Listeners {
    clients: TcpListener,
    control: Option<TcpListener>,
}

/// Where it is told that the pool has failed while clients are served.
#[derive(Drop)]
struct Errors<'m, R: Wait, E: Write> {
    rt: &'m R,
    writer: Mutex<&'m mut E>,
}

impl<'m, R: Wait + Clock, E: Write, V> Alarm<V> for Errors<'m, R, E> {
    type Cause = ();

    fn cause(&self, _pool: &V) {}

    fn pool_failed(&self, _cause: ()) {
        let moment = Moment::now(self.rt);
        let mut writer = self.writer.lock(self.rt);
        tell_failed_pool(&moment, &mut **writer);
    }
}

/// Logs that the pool has failed. The error of the task is printed at the end.
fn tell_failed_pool<E: Write>(moment: &Moment, errors: &mut E) {
    let _ = writeln!(errors, "thinpool: {moment} the pool failed");
}

/// Why serving clients was refused though the pool was closed: an accept failed, so that fewer came, which is a fault; or some of those who came were refused
/// memory or a thread.
fn refused_after(came: u8, wanted: u8, refused: u64) -> Result<(), Failure>
    ensures { number_of result ≡ told_of_clients wanted came refused }
{
    if came < wanted {
        return Err(Failure::fault(Cause::Accept(came)));
    }
    if refused > 0 {
        return Err(Failure {
            refusal: Refusal::Memory,
            cause: Cause::TurnedAway(refused),
        });
    }
    Ok(())
}

/// Serves so many clients of a listener over a hub, and beside them answers control lines where there is a listener for them. The first listener is closed behind
/// the last client that comes, the second one when all are gone. It is generic in the disk and the metadata, so that the prover compares no pool that is written out.
fn serve_hub<R, D, M, A>(
    rt: &R,
    alloc: Global,
    hub: Hub<Served<D, M>>,
    listeners: Listeners,
    count: u8,
    alarm: &A,
) -> tp_crowd::Served<Served<D, M>>
where
    R: Threads + Wait + Clock + Sync,
    D: SharedDisk + Drop + Send + Sync,
    M: Metadata + Drop + Send + Sync,
    A: Alarm<Served<D, M>> + Sync,
    ensures asked { CameOf (cached M.geometry M.stands M.marks M.room M.changed) hub result.hub }
    ensures offered { result.came ≤ count }
    ensures refused { result.refused ≤ result.came }
{
    let Listeners { clients, control } = listeners;
    match control {
        None => serve_listener(rt, alloc, hub, clients, count, alarm),
        Some(control) => {
            serve_listener_with_control(rt, alloc, hub, clients, count, &control, alarm)
        }
    }
}

/// Serves so many clients of a listener over a pool, each from when it is accepted, closes the pool, and hands its disk back. That closing is refused is told first, then
/// that an accept failed, and then that a client was refused memory or a thread. How the clients' sessions end is no refusal, and nothing that the control side does
/// is. That the pool fails is told when it does, and at the end closing is refused.
fn serve_pool<R, D, E>(
    rt: &R,
    alloc: Global,
    pool: Served<ReadCache<D>, Meta>,
    listeners: Listeners,
    clients: u8,
    errors: &mut E,
) -> (D, Result<(), Failure>)
where
    R: Threads + Wait + Clock + Sync,
    D: SharedDisk + TellsTrouble + Drop + Send + Sync,
    E: Write + Send,
    requires { holds_of pool.besides.holders ≡ empty }
    ensures { ServesPool pool clients (number_of result.1) (D.state result.0) }
{
    let alarm = Errors {
        rt,
        writer: Mutex::new(errors),
    };
    let served = serve_hub(rt, alloc, Hub::new(pool), listeners, clients, &alarm);
    let tp_crowd::Served { hub, came, refused } = served;
    let (disk, closed) = end_hub(hub);
    (disk, behind(closed, refused_after(came, clients, refused)))
}

/// Binds the address of clients: `Fault` where the system refuses it.
fn bind<N: Net<Listener = TcpListener, Stream = TcpStream>>(
    net: &N,
    address: &str,
) -> Result<TcpListener, Failure>
    ensures { IfErr result (λ why. why.refusal ≡ Refusal.Fault) }
{
    match TcpListener::bind(net, address) {
        Ok(listener) => Ok(listener),
        Err(error) => Err(Failure::fault(Cause::Address(error))),
    }
}

/// The same of the address of control lines, if there is one.
fn bind_control<N: Net<Listener = TcpListener, Stream = TcpStream>>(
    net: &N,
    address: Option<&str>,
) -> Result<Option<TcpListener>, Failure>
    ensures some { IfOk result (λ listener. is_some listener ≡ is_some address.entry) }
    ensures fault { IfErr result (λ why. why.refusal ≡ Refusal.Fault) }
{
    let Some(address) = address else {
        return Ok(None);
    };
    match TcpListener::bind(net, address) {
        Ok(listener) => Ok(Some(listener)),
        Err(error) => Err(Failure::fault(Cause::Control(error))),
    }
}

/// Tells where a listener listens, and for what: with port 0 the system picked one.
fn tell_where<E: Write>(listener: &TcpListener, what: &str, errors: &mut E) -> Result<(), Failure>
    ensures { IfErr result (λ why. why.refusal ≡ Refusal.Fault) }
{
    let bound = match listener.local_addr() {
        Ok(bound) => bound,
        Err(error) => return Err(Failure::fault(Cause::Address(error))),
    };
    let _ = writeln!(errors, "thinpool: {what} on {bound}");
    Ok(())
}

/// Tells where clients are waited for, and then where control lines are, if they are.
fn tell_listeners<E: Write>(listeners: &Listeners, errors: &mut E) -> Result<(), Failure>
    ensures { IfErr result (λ why. why.refusal ≡ Refusal.Fault) }
{
    tell_where(&listeners.clients, "listening", errors)?;
    match &listeners.control {
        None => Ok(()),
        Some(control) => tell_where(control, "control", errors),
    }
}

/// Binds the address of clients, and that of control lines where there is one, and then tells where each listens.
fn listen<N: Net<Listener = TcpListener, Stream = TcpStream>, E: Write>(
    net: &N,
    address: &str,
    control: Option<&str>,
    errors: &mut E,
) -> Result<Listeners, Failure>
    ensures control { IfOk result (λ listeners. is_some listeners.control ≡ is_some control.entry) }
    ensures fault { IfErr result (λ why. why.refusal ≡ Refusal.Fault) }
{
    let clients = bind(net, address)?;
    let control = bind_control(net, control)?;
    let listeners = Listeners { clients, control };
    tell_listeners(&listeners, errors)?;
    Ok(listeners)
}

/// Serves so many clients of a TCP address over the pool of a disk, which is handed back. The pool is opened before the addresses are bound.
fn serve_disk<R, D, E>(
    rt: &R,
    alloc: Global,
    disk: D,
    address: &str,
    clients: u8,
    control: Option<&str>,
    errors: &mut E,
) -> (D, Result<(), Failure>)
where
    R: Net<Listener = TcpListener, Stream = TcpStream> + Threads + Wait + Clock + Sync,
    D: SharedDisk + TellsTrouble + Drop + Send + Sync,
    E: Write + Send,
    requires { IsHandedOut (D.state disk) }
    ensures { ServesOn clients (number_of result.1) (D.state disk) (D.state result.0) }
{
    let pool = match open_pool(alloc, disk) {
        Ok(pool) => pool,
        Err((why, disk)) => return (disk, Err(why)),
    };
    match listen(rt, address, control, errors) {
        Ok(listeners) => serve_pool(rt, alloc, pool, listeners, clients, errors),
        Err(why) => (pool.into_disk(), Err(why)),
    }
}

/// Serves so many clients of a TCP address over the pool of an image, and then closes the pool; meanwhile it answers the lines of those who come to the
/// control address, where there is one. The image is opened before the addresses are bound.
pub fn serve_image<R, I, E>(
    rt: &R,
    images: &mut I,
    alloc: Global,
    name: &str,
    address: &str,
    clients: u8,
    control: Option<&str>,
    errors: &mut E,
) -> Result<(), Failure>
where
    R: Net<Listener = TcpListener, Stream = TcpStream> + Threads + Wait + Clock + Sync,
    I: Images,
    E: Write + Send,
    ensures { ServesImage name.now clients (I.deeds images.old) (I.deeds images.new) (number_of result) }
{
    match images.open(name) {
        Ok(disk) => {
            let (disk, served) = serve_disk(rt, alloc, disk, address, clients, control, errors);
            images.close(name, disk);
            served
        }
        Err(error) => Err(Failure::unopened(error)),
    }
}
