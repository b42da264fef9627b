//! Keep-alive of TCP streams: the system finds peers that disappeared.

ghost use Rattle.libc.specs.Net.{SockOption};

use libc::net::{
    IPPROTO_TCP, SO_KEEPALIVE, SOL_SOCKET, TCP_KEEPCNT, TCP_KEEPIDLE, TCP_KEEPINTVL, setsockopt,
};
use std::net::TcpStream;
use std::os::fd::AsRawFd;

/// Seconds of silence after which the system probes the peer.
const IDLE: i32 = 60;

/// Seconds between two probes.
const INTERVAL: i32 = 10;

/// Unanswered probes after which the stream fails.
const PROBES: i32 = 6;

/// Sets an option of a stream to a number. The option stays unchanged if the system refuses it.
fn set(stream: &TcpStream, level: i32, option: i32, value: i32)
    requires { SockOption level option }
{
    let mut bytes = [0; 16];
    bytes[..4].copy_from_slice(&value.to_ne_bytes());
    let _ = unsafe { setsockopt(stream.as_raw_fd(), level, option, &bytes, 4) };
}

/// Has the system fail a stream whose silent peer disappeared, two minutes after its last packet.
///
/// Probes are sent only while nothing is unacknowledged. If the peer disappeared with data
/// unacknowledged, the system fails the stream after `net.ipv4.tcp_retries2` retransmissions, by
/// default some 15 minutes. No time limit is set for that: `TCP_USER_TIMEOUT` also counts the time
/// in which a live peer reads nothing, and would cut a client that was stopped or suspended.
pub(crate) fn keep_alive(stream: &TcpStream) {
    set(stream, SOL_SOCKET, SO_KEEPALIVE, 1);
    set(stream, IPPROTO_TCP, TCP_KEEPIDLE, IDLE);
    set(stream, IPPROTO_TCP, TCP_KEEPINTVL, INTERVAL);
    set(stream, IPPROTO_TCP, TCP_KEEPCNT, PROBES);
}
