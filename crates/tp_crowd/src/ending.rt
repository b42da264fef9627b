//! How the server ends a connection, so that the client receives all answers.

use std::io::{self, ErrorKind, Read};
use std::net::{Shutdown, TcpStream};
use std::time::{Clock, Duration, Instant};

/// Milliseconds that a read waits at most, and then counts as interrupted: so long it takes a
/// thread to see that its connection must end.
const LONGEST_WAIT: u64 = 500;

/// Bytes that are discarded at once.
const PIECE: usize = 4096;

/// The most reads whose bytes are discarded, which are 256 MiB: a client that sends without end
/// occupies no thread for longer than these take.
const MOST_READS: u32 = 65_536;

/// Bounds the reads of a stream in time. False if the system refuses that.
pub(crate) fn bound_reads(stream: &TcpStream) -> bool {
    stream
        .set_read_timeout(Some(Duration::from_millis(LONGEST_WAIT)))
        .is_ok()
}

/// Whether a read may be repeated: it was interrupted, or waited too long.
pub(crate) fn may_be_repeated(error: &io::Error) -> bool {
    matches!(
        error.kind(),
        ErrorKind::Interrupted | ErrorKind::WouldBlock | ErrorKind::TimedOut
    )
}

/// Whether less time has passed since a moment. False if there is no clock.
fn is_within<C: Clock>(clock: &C, began: &Instant, limit: Duration) -> bool {
    match began.elapsed(clock) {
        Ok(passed) => passed < limit,
        Err(_) => false,
    }
}

/// Tells the peer that nothing more is sent to it. False if the stream has failed.
pub(crate) fn end_sending(stream: &TcpStream) -> bool {
    stream.shutdown(Shutdown::Write).is_ok()
}

/// Discards what the peer of a stream sends, until it ends its side, or `limit` is over, or 256 MiB
/// were discarded. The stream must have been ended for sending.
///
/// Without this a TCP client may lose answers. If a socket is closed while input is unread, or if
/// input arrives afterwards, the system resets the connection and drops what it has not sent. For
/// the same reason the stream must not have been shut down for reading.
pub(crate) fn discard<C: Clock>(clock: &C, stream: &mut TcpStream, limit: Duration) {
    let Ok(began) = Instant::now(clock) else {
        return;
    };
    let mut buffer = [0; PIECE];
    for _ in 0..MOST_READS {
        if !is_within(clock, &began, limit) {
            return;
        }
        match stream.read(&mut buffer) {
            Ok(0) => return,
            Ok(_) => {}
            Err(error) if may_be_repeated(&error) => {}
            Err(_) => return,
        }
    }
}
