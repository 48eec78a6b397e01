//! The loopback centres.
use crate::stream_peer::StreamPeer;
use smx_centre::{Centre, Mode};
use smx_link::Polled;
use smx_memory_link::{CentrePeer, Peer};
use std::alloc::Global;
use std::io;
use std::net::{Net, TcpListener, TcpStream};
use std::rt::Clock;
use std::sync::atomic::{AtomicBool, Ordering};
use std::thread::sleep;
use std::time::Duration;

/// Where somebody listens at a port that the system chooses, on this machine alone.
pub(crate) const ANY_PORT: &str = "127.0.0.1:0";

/// Where the centres listen, each at a port of its own.
#[derive(Drop)]
pub(crate) struct Centres {
    listeners: Vec<TcpListener>,
}

impl Centres {
    /// So many listen.
    pub(crate) fn listen<R>(rt: &R, alloc: Global, count: usize) -> io::Result<Centres>
    where
        R: Net<Listener = TcpListener, Stream = TcpStream>,
    {
        let mut listeners = Vec::new(alloc);
        for _ in 0..count {
            let listener = TcpListener::bind(rt, ANY_PORT)?;
            listener.set_nonblocking(true)?;
            listeners.push(listener)?;
        }
        Ok(Centres { listeners })
    }

    /// Where the centre with this index listens.
    pub(crate) fn address(&self, alloc: Global, index: usize) -> Option<String> {
        let Ok(address) = self.listeners.get(index)?.local_addr() else {
            return None;
        };
        format!(in alloc; "{address}").ok()
    }

    /// Serves one connection to the centre with this index, until it ends or the demonstration is over.
    pub(crate) fn serve<R: Clock>(&self, rt: &R, alloc: Global, index: usize, over: &AtomicBool) {
        let Some(listener) = self.listeners.get(index) else {
            return;
        };
        for _ in 0..u64::MAX {
            if over.load(Ordering::SeqCst) {
                return;
            }
            match listener.accept() {
                Ok((stream, _)) => {
                    answer_all(alloc, stream, over);
                    return;
                }
                Err(_) => sleep(rt, Duration::from_millis(1)),
            }
        }
    }
}

/// Answers what comes over a connection as a loopback centre does, until it ends or all is over.
pub fn answer_all(alloc: Global, stream: TcpStream, over: &AtomicBool) {
    let Ok(mut stream) = StreamPeer::new(stream) else {
        return;
    };
    let mut centre = CentrePeer::new(alloc, Centre::new(alloc, Mode::Plain));
    let mut buffer = [0u8; 4_096];
    for _ in 0..u64::MAX {
        match stream.give(&mut buffer) {
            Ok(Polled::Octets(count)) => {
                let heard = buffer.get(..count).unwrap_or(&[]);
                if centre.take(heard).is_err() {
                    return;
                }
            }
            Ok(Polled::Nothing) if over.load(Ordering::SeqCst) => return,
            Ok(Polled::Nothing) => {}
            Ok(Polled::End) | Err(_) => return,
        }
        if !write_all(&mut stream, &mut centre) {
            return;
        }
    }
}

// Writes what the centre has to say; whether the connection stands.
fn write_all(stream: &mut StreamPeer, centre: &mut CentrePeer) -> bool {
    let mut buffer = [0u8; 4_096];
    for _ in 0..u64::MAX {
        let Ok(Polled::Octets(count)) = centre.give(&mut buffer) else {
            return true;
        };
        let said = buffer.get(..count).unwrap_or(&[]);
        if stream.take(said).is_err() {
            return false;
        }
    }
    true
}
