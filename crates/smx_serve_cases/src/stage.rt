//! A proxy, the links to it, and headers over a socket.
use smx_config::{Config, read};
use smx_pdu::{Body, Pdu, encode};
use smx_serve::{Ended, Log, Remote, Server};
use std::alloc::Global;
use std::io::{Read, Write};
use std::net::{Net, TcpListener, TcpStream};
use std::process::Abort;
use std::rt::Clock;
use std::sync::{Arc, Wait};
use std::test::Fail;
use std::thread::{JoinHandle, Threads, spawn};
use std::time::Duration;

// How long what has only to end may take, in milliseconds.
pub(crate) const PATIENCE: u64 = 30_000;

// The same connection, whose reads don't wait forever.
pub(crate) fn patient(stream: TcpStream) -> Result<TcpStream, Fail> {
    stream.set_read_timeout(Some(Duration::from_millis(PATIENCE)))?;
    Ok(stream)
}

// The proxy's own bind, and the centre's answer (SMPP 3.4, sections 4.1.5 and 4.1.6).
pub(crate) const OWN_BIND: &[u8] =
    b"\x00\x00\x00\x1e\x00\x00\x00\x09\x00\x00\x00\x00\x7f\xff\xff\xfdproxy\x00pw\x00\x00\x34\x00\x00\x00";

pub(crate) const OWN_BOUND: &[u8] =
    b"\x00\x00\x00\x17\x80\x00\x00\x09\x00\x00\x00\x00\x7f\xff\xff\xfdcentre\x00";

// A proxy at any free port, with one upstream at this centre, the account alpha, and this silence before
// an enquiry, in milliseconds. A lost link is tried again soon.
pub(crate) fn config_for(
    alloc: Global,
    centre: &TcpListener,
    enquire: u64,
) -> Result<Config, Fail> {
    let port = centre.local_addr()?.port();
    let text = format!(in alloc;
        "listen = \"127.0.0.1:0\"\n[timers]\nenquire = {enquire}\nreconnect = 100\n[[upstream]]\naddress = \"127.0.0.1:{port}\"\nsystem_id = \"proxy\"\npassword = \"pw\"\n[[account]]\nsystem_id = \"alpha\"\npassword = \"p\"\nprefixes = [\"49\"]\n"
    )?;
    Ok(read(alloc, text.as_str())?)
}

// A proxy that runs in a thread of its own.
#[derive(Drop)]
pub(crate) struct Running {
    pub remote: Arc<Remote>,
    proxy: JoinHandle<Ended>,
}

impl Running {
    // Serves by this configuration; this log is finished behind it.
    pub(crate) fn told<R>(
        rt: R,
        server: Server,
        config: Config,
        log: Option<Arc<Log>>,
    ) -> Result<Running, Fail>
    where
        R: Net<Listener = TcpListener, Stream = TcpStream>
            + Clock
            + Wait
            + Threads
            + Abort
            + AllocGlobal
            + Copy
            + Drop
            + Send
            + 'static,
    {
        let remote = server.remote().expect(&rt, "no remote");
        let proxy = spawn(&rt, move || {
            let ended = server.serve(&rt, rt.alloc(), &config);
            if let Some(log) = log {
                log.finish(&rt);
            }
            ended
        })?;
        Ok(Running { remote, proxy })
    }

    // The same, where nobody reads its lines.
    pub(crate) fn of<R>(rt: R, config: Config) -> Result<Running, Fail>
    where
        R: Net<Listener = TcpListener, Stream = TcpStream>
            + Clock
            + Wait
            + Threads
            + Abort
            + AllocGlobal
            + Copy
            + Drop
            + Send
            + 'static,
    {
        let server = Server::new(&rt, rt.alloc()).expect(&rt, "no server");
        Running::told(rt, server, config, None)
    }

    // It has ended, as it was told to.
    pub(crate) fn is_over<R: Threads + Wait + Abort>(self, rt: &R) {
        assert_eq!(rt; self.proxy.join(rt), Ended::Stopped);
    }
}

// The connection that the proxy makes to the centre, which hears its bind.
pub(crate) fn binding(rt: &impl Abort, centre: &TcpListener) -> Result<TcpStream, Fail> {
    let (up, _) = centre.accept()?;
    let mut up = patient(up)?;
    assert!(rt; comes(&mut up, OWN_BIND));
    Ok(up)
}

// The same, and the centre answers it.
pub(crate) fn bound(rt: &impl Abort, centre: &TcpListener) -> Result<TcpStream, Fail> {
    let mut up = binding(rt, centre)?;
    up.write_all(OWN_BOUND)?;
    Ok(up)
}

// A client's connection.
pub(crate) fn connected<R: Net<Stream = TcpStream>>(
    rt: &R,
    alloc: Global,
    remote: &Remote,
) -> Result<TcpStream, Fail> {
    let address = format!(in alloc; "127.0.0.1:{}", remote.port())?;
    patient(TcpStream::connect(rt, address.as_str())?)
}

// Whether these octets come next.
pub(crate) fn comes(stream: &mut TcpStream, octets: &[u8]) -> bool {
    let mut buffer = [0u8; 64];
    let Some(place) = buffer.get_mut(..octets.len()) else {
        return false;
    };
    stream.read_exact(place).is_ok() && *place == *octets
}

// A PDU that is a header alone.
#[derive(Clone, Copy)]
pub(crate) struct Header {
    pub command: u32,
    pub status: u32,
    pub number: u32,
}

impl Header {
    fn octets(self, alloc: Global) -> Option<Vec<u8>> {
        let pdu = Pdu {
            command: self.command,
            status: self.status,
            number: self.number,
            body: Body::empty(alloc),
        };
        let mut octets = Vec::new(alloc);
        encode(&pdu, &mut octets).ok()?;
        Some(octets)
    }

    // Says it. False where the peer is gone.
    pub fn is_said(self, alloc: Global, stream: &mut TcpStream) -> bool {
        match self.octets(alloc) {
            Some(octets) => stream.write_all(octets.as_slice()).is_ok(),
            None => false,
        }
    }

    // Whether it comes next.
    pub fn is_heard(self, alloc: Global, stream: &mut TcpStream) -> bool {
        match self.octets(alloc) {
            Some(octets) => comes(stream, octets.as_slice()),
            None => false,
        }
    }
}

// The number of the next PDU, where it is a header alone with this command and status 0.
pub(crate) fn number_of(stream: &mut TcpStream, command: u32) -> Option<u32> {
    let mut buffer = [0u8; 16];
    stream.read_exact(&mut buffer).ok()?;
    let header = smx_pdu::read_header(&buffer);
    if header.length != 16 || header.command != command || header.status != 0 {
        return None;
    }
    Some(header.number)
}
