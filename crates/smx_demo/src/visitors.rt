//! The clients.
use crate::stream_peer::StreamPeer;
use smx_config::Account;
use smx_demo_client::ask;
use smx_memory_link::MemoryLink;
use smx_session::{Account as Login, Rules};
use std::alloc::{AllocError, Global};
use std::net::{Net, TcpListener, TcpStream};
use std::rt::Clock;
use std::thread::sleep;
use std::time::Duration;

/// How many turns a client makes.
const TURNS: u64 = 100_000;

/// How often a client connects at most, where the proxy has no free slot for it.
const TRIES: u32 = 100;

/// How long it waits before it connects again, in milliseconds.
const PAUSE: u64 = 20;

// One connection: how many messages were answered.
fn visit<R>(rt: &R, alloc: Global, address: &str, account: &Account) -> Result<u32, AllocError>
where
    R: Net<Listener = TcpListener, Stream = TcpStream>,
{
    let Ok(stream) = TcpStream::connect(rt, address) else {
        return Ok(0);
    };
    let Ok(peer) = StreamPeer::new(stream) else {
        return Ok(0);
    };
    let login = Login {
        system_id: Vec::from_slice(alloc, account.system_id.as_str().as_bytes())?,
        password: Vec::from_slice(alloc, account.password.as_str().as_bytes())?,
        rules: Rules::none(),
    };
    let mut link = MemoryLink::new(peer);
    ask(alloc, &mut link, &login, TURNS)
}

/// Lets the client of this account send its messages, and answers how many were answered well. It
/// connects again where nothing was answered.
pub(crate) fn answered<R>(rt: &R, alloc: Global, address: &str, account: &Account) -> u32
where
    R: Net<Listener = TcpListener, Stream = TcpStream> + Clock,
{
    for _ in 0..TRIES {
        match visit(rt, alloc, address, account) {
            Ok(0) => sleep(rt, Duration::from_millis(PAUSE)),
            Ok(answered) => return answered,
            Err(AllocError) => return 0,
        }
    }
    0
}
