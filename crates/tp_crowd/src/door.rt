//! Where clients come from.

ghost use Rattle.std.specs.Prelude.{◌≡◌, IfOk, None};

use crate::alive::keep_alive;
use std::io;
use std::net::{Shutdown, SocketAddr, TcpListener, TcpStream};
use std::os::fd::{AsRawFd, OwnedFd, RawFd};
use std::os::unix::net::UnixListener;

/// What clients are accepted from.
#[derive(Drop)]
enum Listener {
    Tcp(TcpListener),
    Unix(UnixListener),
}

/// Where clients come from: a TCP address, or a socket file. Many threads may wait at it at once.
#[derive(Drop)]
pub struct Door {
    listener: Listener,
    /// Another handle of the same socket, by which accepts that wait are ended.
    handle: TcpStream,
}

impl Door {
    /// A door at a TCP address.
    pub fn tcp(listener: TcpListener) -> io::Result<Door>
        ensures { IfOk result (λ door. door.listener ≡ Listener.Tcp listener) }
    {
        let handle = TcpStream::from(OwnedFd::from(listener.try_clone()?));
        Ok(Door {
            listener: Listener::Tcp(listener),
            handle,
        })
    }

    /// A door at a socket file.
    pub fn unix(listener: UnixListener) -> io::Result<Door>
        ensures { IfOk result (λ door. door.listener ≡ Listener.Unix listener) }
    {
        let handle = TcpStream::from(OwnedFd::from(listener.try_clone()?));
        Ok(Door {
            listener: Listener::Unix(listener),
            handle,
        })
    }

    /// The TCP address, if it is at one that the system tells: where port 0 was wanted the system picked one.
    pub fn address(&self) -> Option<SocketAddr>
        ensures { (listener : UnixListener) → self.now.listener ≡ Listener.Unix listener → result ≡ None }
    {
        match &self.listener {
            Listener::Tcp(listener) => listener.local_addr().ok(),
            Listener::Unix(_) => None,
        }
    }

    /// Waits for the next one who comes: its stream, and where it comes from at a TCP address. The stream of one who comes by a socket file refuses what only TCP
    /// has.
    pub(crate) fn accept(&self) -> io::Result<(TcpStream, Option<SocketAddr>)> {
        match &self.listener {
            Listener::Tcp(listener) => {
                let (stream, peer) = listener.accept()?;
                keep_alive(&stream);
                Ok((stream, Some(peer)))
            }
            Listener::Unix(listener) => {
                let (stream, _) = listener.accept()?;
                Ok((TcpStream::from(OwnedFd::from(stream)), None))
            }
        }
    }

    /// The descriptor of its socket.
    pub(crate) fn descriptor(&self) -> RawFd {
        self.handle.as_raw_fd()
    }

    /// Ends each accept that waits. The system refuses who comes from now on.
    pub(crate) fn shut(&self) {
        let _ = self.handle.shutdown(Shutdown::Both);
    }
}
