//! Places to listen at and to connect to: socket files, and TCP addresses.

use crate::rights::Rights;
use std::alloc::{AllocError, Global};
use std::fs::{self, DirBuilder, File, Permissions};
use std::io::{self, ErrorKind};
use std::net::{Net, TcpListener, TcpStream};
use std::os::fd::OwnedFd;
use std::os::unix::fs::{DirBuilderExt, FileTypeExt, PermissionsExt, chown};
use std::os::unix::net::{UnixListener, UnixStream};
use std::rt::Files;
use tp_crowd::Door;

/// What the name of a socket file begins with, as a place.
const SOCKET_FILE: &str = "unix:";

/// Why a place is not listened at.
#[derive(Clone, Copy, Debug)]
pub enum NoDoor {
    /// There is no memory for its path, or for the list of doors.
    Memory,
    /// The system refuses it.
    System(io::Error),
}

/// A door at a place. A socket file has these rights from its first moment, and takes the place of one that a server left that runs no more.
pub fn open_door<R>(rt: &R, alloc: Global, rights: &Rights, place: &str) -> Result<Door, NoDoor>
where
    R: Files<File = File> + Net<Listener = TcpListener, Stream = TcpStream>,
{
    let opened = match place.strip_prefix(SOCKET_FILE) {
        None => open_address(rt, place),
        Some(path) => match names_beside(alloc, path) {
            Ok((folder, file)) => open_file(rt, rights, path, &folder, &file),
            Err(_) => return Err(NoDoor::Memory),
        },
    };
    match opened {
        Ok(door) => Ok(door),
        Err(error) => Err(NoDoor::System(error)),
    }
}

/// A door at a TCP address.
fn open_address<R>(rt: &R, address: &str) -> io::Result<Door>
where
    R: Net<Listener = TcpListener, Stream = TcpStream>,
{
    Door::tcp(TcpListener::bind(rt, address)?)
}

/// The folder beside a path in which its socket file is made, and the file in it.
fn names_beside(alloc: Global, path: &str) -> Result<(String, String), AllocError> {
    let folder = format!(in alloc; "{path}.new")?;
    let file = format!(in alloc; "{path}.new/s")?;
    Ok((folder, file))
}

/// A door at a socket file, which is made in that folder as that file.
fn open_file<R>(rt: &R, rights: &Rights, path: &str, folder: &str, file: &str) -> io::Result<Door>
where
    R: Files<File = File> + Net<Listener = TcpListener, Stream = TcpStream>,
{
    find_free(rt, path)?;
    Door::unix(bind_file(rt, rights, path, folder, file)?)
}

/// Refuses a path where something else stands than a socket file that nobody answers on.
fn find_free<R: Files<File = File> + Net>(rt: &R, path: &str) -> io::Result<()> {
    let found = match fs::symlink_metadata(rt, path) {
        Ok(found) => found,
        Err(error) if error.kind() == ErrorKind::NotFound => return Ok(()),
        Err(error) => return Err(error),
    };
    if !found.file_type().is_socket() {
        return Err(io::Error::from(ErrorKind::AlreadyExists));
    }
    match UnixStream::connect(rt, path) {
        Ok(_) => Err(io::Error::from(ErrorKind::AddrInUse)),
        Err(error) if error.kind() == ErrorKind::ConnectionRefused => Ok(()),
        Err(error) => Err(error),
    }
}

/// Listens at a socket file. It is made in a folder that nobody else may enter, and moved to its path when its rights stand.
fn bind_file<R: Files<File = File> + Net>(
    rt: &R,
    rights: &Rights,
    path: &str,
    folder: &str,
    file: &str,
) -> io::Result<UnixListener> {
    clear(rt, folder, file);
    DirBuilder::new().mode(0o700).create(rt, folder)?;
    let bound = bind_with(rt, rights, file, path);
    clear(rt, folder, file);
    bound
}

/// Removes the folder and the file in it, where they are.
fn clear<R: Files>(rt: &R, folder: &str, file: &str) {
    let _ = fs::remove_file(rt, file);
    let _ = fs::remove_dir(rt, folder);
}

/// Listens at a socket file of these rights, and moves it to its path.
fn bind_with<R: Files + Net>(
    rt: &R,
    rights: &Rights,
    file: &str,
    path: &str,
) -> io::Result<UnixListener> {
    let listener = UnixListener::bind(rt, file)?;
    if rights.group.is_some() {
        chown(rt, file, None, rights.group)?;
    }
    fs::set_permissions(rt, file, Permissions::from_mode(rights.mode))?;
    fs::rename(rt, file, path)?;
    Ok(listener)
}

/// A connection to a place.
pub(crate) fn connect<R: Net<Stream = TcpStream>>(net: &R, place: &str) -> io::Result<TcpStream> {
    match place.strip_prefix(SOCKET_FILE) {
        None => TcpStream::connect(net, place),
        Some(path) => Ok(TcpStream::from(OwnedFd::from(UnixStream::connect(net, path)?))),
    }
}
