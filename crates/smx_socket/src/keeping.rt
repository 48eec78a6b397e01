//! What the system does of itself where a peer is gone.
ghost use Rattle.libc.specs.Net.{SockOption};

use libc::net::{
    IPPROTO_TCP, SO_KEEPALIVE, SOL_SOCKET, TCP_KEEPCNT, TCP_KEEPIDLE, TCP_KEEPINTVL,
    TCP_USER_TIMEOUT, setsockopt,
};
use mio::net::TcpStream;
use std::os::fd::AsRawFd;

/// After so many seconds without an octet the system asks whether the peer is there.
const IDLE: i32 = 60;

/// It asks again after so many seconds,
const INTERVAL: i32 = 10;

/// and where so many questions weren't answered the connection has failed.
const COUNT: i32 = 6;

/// So has one that acknowledged nothing of what was sent for so many milliseconds.
const UNACKNOWLEDGED: i32 = 120_000;

// Sets an option of the system's to a number. Where the system has no such option nothing changes.
fn set(stream: &TcpStream, level: i32, name: i32, value: i32)
    requires { SockOption level name }
{
    let mut octets = [0_u8; 16];
    octets[..4].copy_from_slice(&value.to_ne_bytes());
    // The descriptor is the stream's own, which is open for as long as it is lent.
    let _ = unsafe { setsockopt(stream.as_raw_fd(), level, name, &octets, 4) };
}

/// Sees to it that a connection whose peer is gone fails, though nothing is sent over it.
pub(crate) fn keep_alive(stream: &TcpStream) {
    set(stream, SOL_SOCKET, SO_KEEPALIVE, 1);
    set(stream, IPPROTO_TCP, TCP_KEEPIDLE, IDLE);
    set(stream, IPPROTO_TCP, TCP_KEEPINTVL, INTERVAL);
    set(stream, IPPROTO_TCP, TCP_KEEPCNT, COUNT);
    set(stream, IPPROTO_TCP, TCP_USER_TIMEOUT, UNACKNOWLEDGED);
}
