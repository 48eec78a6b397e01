//! A connection, of a client or of a centre, over which PDUs are said and heard.
use crate::stage::{PATIENCE, comes};
use smx_pdu::command::{ENQUIRE_LINK, RESPONSE, SUBMIT_SM};
use smx_pdu::{Header, read_header};
use std::cmp::Ord;
use std::io::{Read, Write};
use std::net::{Net, TcpStream};
use std::os::fd::AsRawFd;
use std::process::Abort;
use std::rt::Clock;
use std::thread::sleep;
use std::time::Duration;

// How often a client connects at most, until it has a slot, ten milliseconds one after the other.
const TRIES: u32 = 3_000;

// The body of a submit_sm (SMPP 3.4, section 4.4.1): all fields are empty or 0 but for the
// destination, `1`.
const SUBMIT: &[u8] = b"\0\0\0\0\0\01\0\0\0\0\0\0\0\0\0\0\0";

// The bind of the account `c0` with the password `p` as transceiver (section 4.1.5).
const BIND: [u8; 26] = *b"\0\0\0\x1a\0\0\0\x09\0\0\0\0\0\0\0\x01c0\0p\0\0\x34\0\0\0";

// A header of these numbers (section 3.2).
pub(crate) fn header(length: u32, command: u32, status: u32, number: u32) -> [u8; 16] {
    let [a, b, c, d] = length.to_be_bytes();
    let [e, f, g, h] = command.to_be_bytes();
    let [i, j, k, l] = status.to_be_bytes();
    let [m, n, o, p] = number.to_be_bytes();
    [a, b, c, d, e, f, g, h, i, j, k, l, m, n, o, p]
}

// The bind of the account with this index, 0 to 7.
pub(crate) fn bind_of(account: u8) -> [u8; 26] {
    let mut bind = BIND;
    bind[17] = b'0' | (account & 7);
    bind
}

// One end of a connection.
#[derive(Drop)]
pub(crate) struct Caller {
    stream: TcpStream,
}

impl Caller {
    // The end of this connection, whose reads and writes don't wait forever.
    pub(crate) fn new(rt: &impl Abort, stream: TcpStream) -> Caller {
        stream
            .set_nodelay(true)
            .expect(rt, "a connection that writes late");
        let patience = Duration::from_millis(PATIENCE);
        let reads = stream.set_read_timeout(Some(patience));
        reads.expect(rt, "a connection whose reads wait forever");
        let writes = stream.set_write_timeout(Some(patience));
        writes.expect(rt, "a connection whose writes wait forever");
        Caller { stream }
    }

    // Its writes wait so many milliseconds from now on.
    pub(crate) fn writes_for(&self, rt: &impl Abort, milliseconds: u64) {
        let time = Duration::from_millis(milliseconds);
        let writes = self.stream.set_write_timeout(Some(time));
        writes.expect(rt, "a connection whose writes wait forever");
    }

    // A new connection to this address, which may be closed for want of a slot.
    pub(crate) fn to<R>(rt: &R, address: &str) -> Caller
    where
        R: Net<Stream = TcpStream> + Abort,
    {
        let stream = TcpStream::connect(rt, address).expect(rt, "no connection to the proxy");
        Caller::new(rt, stream)
    }

    // A connection with a slot, which was answered an enquiry.
    pub(crate) fn seated<R>(rt: &R, address: &str) -> Caller
    where
        R: Net<Stream = TcpStream> + Clock + Abort,
    {
        for _ in 0..TRIES {
            let mut caller = Caller::to(rt, address);
            if caller.is_served() {
                return caller;
            }
            sleep(rt, Duration::from_millis(10));
        }
        panic!(rt; "no connection has a slot")
    }

    // The same, bound to the account with this index.
    pub(crate) fn bound<R>(rt: &R, address: &str, account: u8) -> Caller
    where
        R: Net<Stream = TcpStream> + Clock + Abort,
    {
        let mut caller = Caller::seated(rt, address);
        let is_granted = caller.say(&bind_of(account)) && caller.hears_status(0);
        assert!(rt;
            is_granted,
            "the bind to the account c{account} is not granted"
        );
        caller
    }

    // The number of its descriptor.
    pub(crate) fn descriptor(&self) -> i32 {
        self.stream.as_raw_fd()
    }

    // Writes octets. False where the connection is gone, or nobody takes them for long.
    pub(crate) fn say(&mut self, octets: &[u8]) -> bool {
        self.stream.write_all(octets).is_ok()
    }

    // Says a PDU that is a header alone.
    pub(crate) fn say_header(&mut self, command: u32, status: u32, number: u32) -> bool {
        self.say(&header(16, command, status, number))
    }

    // Says a submit_sm with this number.
    pub(crate) fn submit(&mut self, number: u32) -> bool {
        self.say(&header(34, SUBMIT_SM, 0, number)) && self.say(SUBMIT)
    }

    // The header of the next PDU, whose body is read and dropped.
    pub(crate) fn hear(&mut self) -> Option<Header> {
        let mut octets = [0u8; 16];
        self.stream.read_exact(&mut octets).ok()?;
        let header = read_header(&octets);
        if self.skips(header.length.saturating_sub(16) as usize) {
            return Some(header);
        }
        None
    }

    // Reads so many octets. False where they don't come.
    fn skips(&mut self, count: usize) -> bool {
        let mut left = count;
        let mut buffer = [0u8; 4_096];
        for _ in 0..count {
            let most = left.min(4_096);
            let Some(place) = buffer.get_mut(..most) else {
                return false;
            };
            if place.is_empty() {
                return true;
            }
            if self.stream.read_exact(place).is_err() {
                return false;
            }
            left -= most;
        }
        true
    }

    // Whether these octets come next.
    pub(crate) fn hears(&mut self, octets: &[u8]) -> bool {
        comes(&mut self.stream, octets)
    }

    // Whether the next PDU has this status.
    pub(crate) fn hears_status(&mut self, status: u32) -> bool {
        match self.hear() {
            Some(header) => header.status == status,
            None => false,
        }
    }

    // Whether an enquiry is answered next.
    pub(crate) fn is_served(&mut self) -> bool {
        if !self.say_header(ENQUIRE_LINK, 0, 1) {
            return false;
        }
        match self.hear() {
            Some(header) => header.command == RESPONSE | ENQUIRE_LINK,
            None => false,
        }
    }

    // Whether the other side closes it, and says nothing more.
    pub(crate) fn is_closed(&mut self) -> bool {
        let mut octets = [0u8; 16];
        match self.stream.read(&mut octets) {
            Ok(count) => count == 0,
            Err(fault) => fault.kind() == std::io::ErrorKind::ConnectionReset,
        }
    }
}
