//! Clients without end over the pool of an image, which is then closed, and beside them control lines.

ghost use Rattle.std.specs.Prelude.{◌≡◌, IfErr, false, true, if◌then◌else◌};
ghost use Rattle.std.specs.FinMap.{empty};
ghost use Rattle.nbd_session.specs.Session.{below, default_of, has_clones, is_extended, writes_through};
ghost use Rattle.tp_disk.specs.HandedOut.{IsHandedOut};
ghost use Rattle.tp_holders.specs.Holders.{holds_of};
ghost use Rattle.tp_lock.specs.Locked.{CameOf};
ghost use Rattle.tp_served.specs.Served.{cached};
ghost use Rattle.tp_failures.specs.Failures.{number_of};
ghost use Rattle.tp_program.specs.Living.{StaysPool};
ghost use Rattle.tp_program.specs.Staying.{IsNoDoor, StaysImage, StaysOn, default_for, told_of_place, told_of_threads};

use crate::journal::{Addresses, Journal};
use nbd_session::{Profile, has_clones};
use std::alloc::Global;
use std::fs::File;
use std::io::Write;
use std::net::{Net, TcpListener, TcpStream};
use std::rt::Files;
use std::sync::Wait;
use std::thread;
use std::thread::Threads;
use std::time::Clock;
use tp_cache::ReadCache;
use tp_commands::beginning::begin_hub;
use tp_commands::closing::{behind, end_hub};
use tp_commands::opening::open_pool;
use tp_crowd::{Chronicle, Door, Stayed, serve_until_stopped};
use tp_disk::{SharedDisk, TellsTrouble};
use tp_failures::{Cause, Failure};
use tp_hub::Hub;
use tp_images::Images;
use tp_meta::{Meta, Metadata};
use tp_model::{DevId, Refusal};
use tp_places::{NoDoor, Rights, open_door, rights_of};
use tp_served::Served;
use tp_words::{Service, Texts};

/// The number by which a refusal tells the place of control lines. Those of clients are told by 0 to 3.
pub(crate) const CONTROL: u8 = 4;

/// Where clients come, and where those come who send control lines.
#[derive(Drop)]
struct Doors {
    clients: Vec<Door>,
    control: Option<Door>,
}

/// A place that is not listened at.
fn closed_place(number: u8, why: NoDoor) -> Failure
    ensures told { result.refusal ≡ told_of_place why }
    ensures kind { IsNoDoor result.refusal }
{
    match why {
        NoDoor::Memory => Failure::from(Refusal::Memory),
        NoDoor::System(error) => Failure::fault(Cause::Place(number, error)),
    }
}

/// Opens the door of a place, if there is one, behind others.
fn add_door<R>(
    rt: &R,
    alloc: Global,
    rights: &Rights,
    number: u8,
    place: Option<&str>,
    doors: &mut Vec<Door>,
) -> Result<(), Failure>
where
    R: Files<File = File> + Net<Listener = TcpListener, Stream = TcpStream>,
    ensures { IfErr result (λ why. IsNoDoor why.refusal) }
{
    let Some(place) = place else {
        return Ok(());
    };
    match open_door(rt, alloc, rights, place) {
        Ok(door) => match doors.push(door) {
            Ok(()) => Ok(()),
            Err(_) => Err(closed_place(number, NoDoor::Memory)),
        },
        Err(why) => Err(closed_place(number, why)),
    }
}

/// Opens the doors of clients.
fn open_clients<R>(
    rt: &R,
    alloc: Global,
    rights: &Rights,
    places: &Texts<'_>,
) -> Result<Vec<Door>, Failure>
where
    R: Files<File = File> + Net<Listener = TcpListener, Stream = TcpStream>,
    ensures { IfErr result (λ why. IsNoDoor why.refusal) }
{
    let mut doors = Vec::new(alloc);
    add_door(rt, alloc, rights, 0, Some(places.first), &mut doors)?;
    add_door(rt, alloc, rights, 1, places.second, &mut doors)?;
    add_door(rt, alloc, rights, 2, places.third, &mut doors)?;
    add_door(rt, alloc, rights, 3, places.fourth, &mut doors)?;
    Ok(doors)
}

/// Opens the door of control lines, if there is a place for them.
fn open_control<R>(
    rt: &R,
    alloc: Global,
    rights: &Rights,
    place: Option<&str>,
) -> Result<Option<Door>, Failure>
where
    R: Files<File = File> + Net<Listener = TcpListener, Stream = TcpStream>,
    ensures { IfErr result (λ why. IsNoDoor why.refusal) }
{
    let Some(place) = place else {
        return Ok(None);
    };
    match open_door(rt, alloc, rights, place) {
        Ok(door) => Ok(Some(door)),
        Err(why) => Err(closed_place(CONTROL, why)),
    }
}

/// The TCP addresses at which clients are waited for, by the index of their doors: with port 0 the
/// system has picked one.
fn addresses_of(doors: &[Door]) -> Addresses {
    let mut addresses = [None; 4];
    for (address, door) in addresses.iter_mut().zip(doors) {
        *address = door.address();
    }
    addresses
}

/// Tells where somebody is waited for, and for what.
fn tell_door<E: Write>(door: &Door, place: Option<&str>, what: &str, errors: &mut E) {
    let _ = match (door.address(), place) {
        (Some(address), _) => writeln!(errors, "thinpool: {what} on {address}"),
        (None, Some(place)) => writeln!(errors, "thinpool: {what} on {place}"),
        (None, None) => Ok(()),
    };
}

/// Tells where clients are waited for, and then where control lines are, if they are.
fn tell_doors<E: Write>(doors: &Doors, places: &Texts<'_>, control: Option<&str>, errors: &mut E) {
    let texts = [
        Some(places.first),
        places.second,
        places.third,
        places.fourth,
    ];
    for (door, place) in doors.clients.iter().zip(texts) {
        tell_door(door, place, "listening", errors);
    }
    if let Some(door) = &doors.control {
        tell_door(door, control, "control", errors);
    }
}

/// Opens all doors, and then tells where each is, unless faults alone are told.
///
/// The door of control lines is opened first: a script that waits for the socket file of clients
/// then finds the other one too.
fn open_doors<R, E>(
    rt: &R,
    alloc: Global,
    service: &Service<'_>,
    errors: &mut E,
) -> Result<Doors, Failure>
where
    R: Files<File = File> + Net<Listener = TcpListener, Stream = TcpStream>,
    E: Write,
    ensures { IfErr result (λ why. IsNoDoor why.refusal) }
{
    let rights = rights_of(rt, alloc, &service.rights)?;
    let ruler = open_control(rt, alloc, &rights, service.control)?;
    let clients = open_clients(rt, alloc, &rights, &service.places)?;
    let doors = Doors {
        clients,
        control: ruler,
    };
    if !service.is_quiet {
        tell_doors(&doors, &service.places, service.control, errors);
    }
    Ok(doors)
}

/// Why serving clients was refused though the pool was closed: a thread could not be made.
fn refused_threads(is_manned: bool) -> Result<(), Failure>
    ensures { number_of result ≡ told_of_threads is_manned }
{
    if is_manned {
        Ok(())
    } else {
        Err(Failure {
            refusal: Refusal::Memory,
            cause: Cause::Threads,
        })
    }
}

/// The volume of clients who name none. A number that no volume can have is none.
fn default_for(number: Option<u64>) -> Option<DevId>
    ensures { result ≡ default_for number }
{
    match number {
        None => None,
        Some(number) => match DevId::checked(number) {
            Ok(id) => Some(id),
            Err(_) => None,
        },
    }
}

/// Returns the profile of each client without `--write-through`.
fn offered_to(service: &Service<'_>) -> Profile
    ensures extended { is_extended result ≡ true }
    ensures buffered { writes_through result ≡ false }
    ensures clones { has_clones result ≡ service.now.has_clones }
    ensures default { default_of result ≡ (if service.now.has_clones then below 8388608 (default_for service.now.default) else default_for service.now.default) }
{
    let default = default_for(service.default);
    if service.has_clones {
        Profile::cloning(default)
    } else {
        Profile::extended(default)
    }
}

/// Returns the profile of each client.
fn profile_of(service: &Service<'_>) -> Profile
    ensures extended { is_extended result ≡ true }
    ensures through { writes_through result ≡ service.now.writes_through }
    ensures clones { has_clones result ≡ service.now.has_clones }
    ensures default { default_of result ≡ (if service.now.has_clones then below 8388608 (default_for service.now.default) else default_for service.now.default) }
{
    let profile = offered_to(service);
    if service.writes_through {
        profile.writing_through()
    } else {
        profile
    }
}

/// Serves clients over a hub until it is told to stop. It is generic in the disk and the metadata, so that the prover compares no pool that is written out.
fn run_hub<R, D, M, A>(
    rt: &R,
    alloc: Global,
    hub: Hub<Served<D, M>>,
    doors: &Doors,
    profile: Profile,
    chronicle: &A,
) -> Stayed<Served<D, M>>
where
    R: Threads + Wait + Clock + Sync,
    D: SharedDisk + Drop + Send + Sync,
    M: Metadata + Drop + Send + Sync,
    A: Chronicle<Served<D, M>> + Sync,
    ensures asked { CameOf (cached M.geometry M.stands M.marks M.room M.changed) hub result.hub }
{
    serve_until_stopped(
        rt,
        alloc,
        hub,
        doors.clients.as_slice(),
        doors.control.as_ref(),
        profile,
        chronicle,
    )
}

/// Serves clients over a pool until it is told to stop, closes the pool, and hands its disk back. That closing is refused is told first, and then that a thread could
/// not be made. How the clients' sessions end is no refusal, and nothing that the control side does is. That the pool fails is told when it does, and at the end closing is
/// refused. Who said that it is to stop is let go when the pool is closed.
fn run_pool<R, D>(
    rt: &R,
    alloc: Global,
    pool: Served<ReadCache<D>, Meta>,
    doors: &Doors,
    profile: Profile,
    journal: &Journal<'_, R>,
) -> (D, Result<(), Failure>)
where
    R: Threads + Wait + Clock + Sync,
    D: SharedDisk + TellsTrouble + Drop + Send + Sync,
    requires { holds_of pool.besides.holders ≡ empty }
    ensures { StaysPool pool (number_of result.1) (D.state result.0) }
{
    let (hub, cleared) = begin_hub(alloc, pool, has_clones(&profile));
    journal.cleared(cleared);
    let stayed = run_hub(rt, alloc, hub, doors, profile, journal);
    let Stayed {
        hub,
        is_manned,
        askers,
    } = stayed;
    let (disk, closed) = end_hub(hub);
    drop(askers);
    (disk, behind(closed, refused_threads(is_manned)))
}

/// The same, and beside it what is noted is written, by a thread of its own; where there is none for that, the lines that wait are written at the end.
fn run_told<R, D, E>(
    rt: &R,
    alloc: Global,
    pool: Served<ReadCache<D>, Meta>,
    doors: &Doors,
    profile: Profile,
    journal: &Journal<'_, R>,
    errors: &mut E,
) -> (D, Result<(), Failure>)
where
    R: Threads + Wait + Clock + Sync,
    D: SharedDisk + TellsTrouble + Drop + Send + Sync,
    E: Write + Send,
    requires { holds_of pool.besides.holders ≡ empty }
    ensures { StaysPool pool (number_of result.1) (D.state result.0) }
{
    let run = move || -> (D, Result<(), Failure>)
        requires { holds_of pool.besides.holders ≡ empty }
        ensures { StaysPool pool (number_of result.1) (D.state result.0) }
    {
        let ran = run_pool(rt, alloc, pool, doors, profile, journal);
        journal.close();
        ran
    };
    let (_, ran) = thread::join(rt, move || journal.write_to(errors), run);
    ran
}

/// The same over the pool of a disk, which is handed back. The pool is opened before the doors are.
fn run_disk<R, D, E>(
    rt: &R,
    alloc: Global,
    disk: D,
    name: &str,
    service: &Service<'_>,
    errors: &mut E,
) -> (D, Result<(), Failure>)
where
    R: Files<File = File>
        + Net<Listener = TcpListener, Stream = TcpStream>
        + Threads
        + Wait
        + Clock
        + Sync,
    D: SharedDisk + TellsTrouble + Drop + Send + Sync,
    E: Write + Send,
    requires { IsHandedOut (D.state disk) }
    ensures { StaysOn (number_of result.1) (D.state disk) (D.state result.0) }
{
    let pool = match open_pool(alloc, disk) {
        Ok(pool) => pool,
        Err((why, disk)) => return (disk, Err(why)),
    };
    match open_doors(rt, alloc, service, errors) {
        Ok(doors) => {
            let journal = Journal::new(rt, alloc, name, service, addresses_of(&doors.clients));
            let profile = profile_of(service);
            run_told(rt, alloc, pool, &doors, profile, &journal, errors)
        }
        Err(why) => (pool.into_disk(), Err(why)),
    }
}

/// Serves clients over the pool of an image, who come to one to four places, 64 at a time and without end, until a control line says that it is to stop, and then
/// closes the pool. The image is opened before the places are.
pub fn run_image<R, I, E>(
    rt: &R,
    images: &mut I,
    alloc: Global,
    name: &str,
    service: &Service<'_>,
    errors: &mut E,
) -> Result<(), Failure>
where
    R: Files<File = File>
        + Net<Listener = TcpListener, Stream = TcpStream>
        + Threads
        + Wait
        + Clock
        + Sync,
    I: Images,
    E: Write + Send,
    ensures { StaysImage name.now (I.deeds images.old) (I.deeds images.new) (number_of result) }
{
    match images.open(name) {
        Ok(disk) => {
            let (disk, ran) = run_disk(rt, alloc, disk, name, service, errors);
            images.close(name, disk);
            ran
        }
        Err(error) => Err(Failure::unopened(error)),
    }
}
