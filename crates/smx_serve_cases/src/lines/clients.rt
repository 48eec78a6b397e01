//! Lines of clients.
use super::told::Told;
use super::upstreams::LONG;
use crate::loopback::{BIND, BOUND, UNBIND, UNBOUND};
use crate::stage::{Header, bound, comes, connected};
use std::alloc::Global;
use std::io::{Read, Write};
use std::net::{Net, TcpListener, TcpStream};
use std::process::Abort;
use std::test::Fail;

const ENQUIRE_LINK: u32 = 0x0000_0015;

const ENQUIRY: &[u8] = b"\x00\x00\x00\x10\x00\x00\x00\x15\x00\x00\x00\x00\x00\x00\x00\x09";

// Enquiries of more octets than are kept of what came first.
const MANY: u32 = 17;

// Connections that are refused, many more than are told of in a second.
const REFUSED: u64 = 1_000;

// The bind of the account alpha by this command, and its answer (SMPP 3.4, sections 4.1.1 to 4.1.6).
fn bind_by(stream: &mut TcpStream, command: u8) -> Result<bool, Fail> {
    let mut bind = [0u8; 29];
    bind.copy_from_slice(BIND);
    bind[7] = command;
    let mut bound = [0u8; 25];
    bound.copy_from_slice(BOUND);
    bound[7] = command;
    stream.write_all(&bind)?;
    Ok(comes(stream, &bound))
}

// So many enquiries, each of which is answered, and what was said before is decided then.
pub(crate) fn enquires(rt: &impl Abort, alloc: Global, stream: &mut TcpStream, count: u32) {
    for number in 0..count {
        let enquiry = Header {
            command: ENQUIRE_LINK,
            status: 0,
            number,
        };
        let answer = Header {
            command: 0x8000_0000 | ENQUIRE_LINK,
            ..enquiry
        };
        assert!(rt; enquiry.is_said(alloc, stream) && answer.is_heard(alloc, stream));
    }
}

// Clients that are bound in each way, and leave in each.
fn come_and_go<R>(rt: &R, told: &mut Told) -> Result<(), Fail>
where
    R: Net<Stream = TcpStream> + Abort + AllocGlobal,
{
    let mut first = connected(rt, rt.alloc(), &told.remote)?;
    told.client(rt, "1", &first, "connected")?;
    assert!(rt; bind_by(&mut first, 9)?);
    told.client(rt, "1 alpha", &first, "bound as transceiver")?;
    first.write_all(UNBIND)?;
    assert!(rt; comes(&mut first, UNBOUND));
    told.client(rt, "1 alpha", &first, "left")?;
    let mut second = connected(rt, rt.alloc(), &told.remote)?;
    let address = second.local_addr()?;
    told.client(rt, "2", &second, "connected")?;
    assert!(rt; bind_by(&mut second, 1)?);
    told.client(rt, "2 alpha", &second, "bound as receiver")?;
    drop(second);
    let line = format!(in rt.alloc(); "client 2 alpha at {address}: closed its connection")?;
    told.lines.says(rt, line.as_str());
    let mut third = connected(rt, rt.alloc(), &told.remote)?;
    told.client(rt, "3", &third, "connected")?;
    assert!(rt; bind_by(&mut third, 2)?);
    told.client(rt, "3 alpha", &third, "bound as transmitter")?;
    third.write_all(b"\x00\x00\x00\x07\x00\x00\x00\x15\x00\x00\x00\x00\x00\x00\x00\x01")?;
    told.client(rt, "3 alpha", &third, "hung up, a bad length")
}

// A client that enquires before it binds, until its first octets are kept no more, and whose connection is
// reset then, which the system does where octets that came weren't read.
fn reset<R>(rt: &R, told: &mut Told) -> Result<(), Fail>
where
    R: Net<Stream = TcpStream> + Abort + AllocGlobal,
{
    let mut client = connected(rt, rt.alloc(), &told.remote)?;
    let address = client.local_addr()?;
    told.client(rt, "4", &client, "connected")?;
    enquires(rt, rt.alloc(), &mut client, MANY);
    assert!(rt; bind_by(&mut client, 9)?);
    told.client(rt, "4 alpha", &client, "bound as transceiver")?;
    client.write_all(ENQUIRY)?;
    let mut octet = [0u8; 1];
    assert_eq!(rt; client.peek(&mut octet)?, 1);
    drop(client);
    let line = format!(in rt.alloc(); "client 4 alpha at {address}: ended, the link failed")?;
    told.lines.says(rt, line.as_str());
    Ok(())
}

#[test]
fn clients_that_come_and_go(rt: HostRuntime) -> Result<(), Fail> {
    let centre = TcpListener::bind(&rt, "127.0.0.1:0")?;
    let address = format!(in rt.alloc(); "{}", centre.local_addr()?)?;
    let mut told = Told::new(rt, LONG, address)?;
    let up = bound(&rt, &centre)?;
    told.upstream(&rt, "bound")?;
    come_and_go(&rt, &mut told)?;
    reset(&rt, &mut told)?;
    drop(up);
    let words = "ended, it closed the connection; 0 requests failed";
    told.upstream_waits(&rt, words, "tried")?;
    told.stops(&rt);
    told.is_over(&rt);
    Ok(())
}

// Enquires until the connection ends. False where it goes on.
fn enquires_until_it_ends(alloc: Global, stream: &mut TcpStream) -> bool {
    let enquiry = Header {
        command: ENQUIRE_LINK,
        status: 0,
        number: 1,
    };
    let answer = Header {
        command: 0x8000_0000 | ENQUIRE_LINK,
        ..enquiry
    };
    for _ in 0..u32::MAX {
        if !(enquiry.is_said(alloc, stream) && answer.is_heard(alloc, stream)) {
            return true;
        }
    }
    false
}

// Whether the connection ends in order, and nothing more comes.
fn ends(stream: &mut TcpStream) -> bool {
    let mut octet = [0u8; 1];
    matches!(stream.read(&mut octet), Ok(0))
}

// One that isn't bound in time is closed, also where it enquires all the time; one that is bound stays.
#[test]
fn connections_that_are_not_bound(rt: HostRuntime) -> Result<(), Fail> {
    let centre = TcpListener::bind(&rt, "127.0.0.1:0")?;
    let address = format!(in rt.alloc(); "{}", centre.local_addr()?)?;
    let mut told = Told::new(rt, "[timers]\nbind = 1000", address)?;
    let _up = bound(&rt, &centre)?;
    told.upstream(&rt, "bound")?;
    let mut first = connected(&rt, rt.alloc(), &told.remote)?;
    told.client(&rt, "1", &first, "connected")?;
    assert!(rt; bind_by(&mut first, 9)?);
    told.client(&rt, "1 alpha", &first, "bound as transceiver")?;
    let mut second = connected(&rt, rt.alloc(), &told.remote)?;
    told.client(&rt, "2", &second, "connected")?;
    told.client(&rt, "2", &second, "not bound in time")?;
    assert!(rt; ends(&mut second));
    let mut third = connected(&rt, rt.alloc(), &told.remote)?;
    told.client(&rt, "3", &third, "connected")?;
    let address = third.local_addr()?;
    assert!(rt; enquires_until_it_ends(rt.alloc(), &mut third));
    let line = format!(in rt.alloc(); "client 3 at {address}: not bound in time")?;
    told.lines.says(&rt, line.as_str());
    enquires(&rt, rt.alloc(), &mut first, 1);
    told.stops(&rt);
    told.client(&rt, "1 alpha", &first, "answered no unbind")?;
    told.remote.stop();
    Ok(())
}

// The proxy's own enquire_link to a client, and its answer (SMPP 3.4, sections 4.11.1 and 4.11.2).
const OWN_ENQUIRY: &[u8] = b"\x00\x00\x00\x10\x00\x00\x00\x15\x00\x00\x00\x00\x7f\xff\xff\xff";

const ANSWERED: &[u8] = b"\x00\x00\x00\x10\x80\x00\x00\x15\x00\x00\x00\x00\x7f\xff\xff\xff";

// A client that is silent is enquired, and stays as long as it answers (section 7.2).
#[test]
fn clients_that_are_silent(rt: HostRuntime) -> Result<(), Fail> {
    let centre = TcpListener::bind(&rt, "127.0.0.1:0")?;
    let address = format!(in rt.alloc(); "{}", centre.local_addr()?)?;
    let mut told = Told::new(rt, "[timers]\nclient_silence = 1000", address)?;
    let _up = bound(&rt, &centre)?;
    told.upstream(&rt, "bound")?;
    let mut client = connected(&rt, rt.alloc(), &told.remote)?;
    told.client(&rt, "1", &client, "connected")?;
    assert!(rt; bind_by(&mut client, 9)?);
    told.client(&rt, "1 alpha", &client, "bound as transceiver")?;
    for _ in 0..2 {
        assert!(rt; comes(&mut client, OWN_ENQUIRY));
        client.write_all(ANSWERED)?;
    }
    assert!(rt; comes(&mut client, OWN_ENQUIRY));
    told.client(&rt, "1 alpha", &client, "answered no enquire_link")?;
    assert!(rt; ends(&mut client));
    told.stops(&rt);
    told.remote.stop();
    Ok(())
}

// How many connections the next line tells of: it is of one that was refused, or counts such.
fn refused_by<R: Abort + AllocGlobal>(rt: &R, told: &mut Told) -> (u64, bool) {
    let line = told.lines.next(rt.alloc());
    let line = line.as_deref().unwrap_or("nothing");
    if line.ends_with(": refused, no slot is free") {
        return (1, false);
    }
    let rest = line.strip_prefix("in the last second ").unwrap_or("");
    let (count, kinds) = rest
        .split_once(" lines were left out: ")
        .unwrap_or(("", ""));
    assert_eq!(rt; kinds.strip_suffix(" turned away"), Some(count));
    (count.parse::<u64>().expect(rt, line), true)
}

// How many strangers connect, before and behind the honest clients.
const STRANGERS: usize = 20;

// Connections that never bind, all at once.
fn strangers<R>(rt: &R, told: &Told) -> Result<Vec<TcpStream>, Fail>
where
    R: Net<Stream = TcpStream> + AllocGlobal,
{
    let mut standing = Vec::with_capacity(rt.alloc(), STRANGERS)?;
    for _ in 0..STRANGERS {
        standing.push(connected(rt, rt.alloc(), &told.remote)?)?;
    }
    Ok(standing)
}

// Of eight slots connections without a bind hold four. One more takes the place of the oldest, so none
// of them keeps out a client that binds, and those that are bound stay.
#[test]
fn strangers_keep_nobody_out(rt: HostRuntime) -> Result<(), Fail> {
    let centre = TcpListener::bind(&rt, "127.0.0.1:0")?;
    let address = format!(in rt.alloc(); "{}", centre.local_addr()?)?;
    let keys = "clients = 8\n[timers]\nbind = 60000";
    let mut told = Told::new(rt, keys, address)?;
    let _up = bound(&rt, &centre)?;
    told.upstream(&rt, "bound")?;
    let mut standing = Vec::new(rt.alloc());
    for number in ["1", "2", "3", "4"] {
        let next = connected(&rt, rt.alloc(), &told.remote)?;
        told.client(&rt, number, &next, "connected")?;
        standing.push(next)?;
    }
    let fifth = connected(&rt, rt.alloc(), &told.remote)?;
    if let Some(oldest) = standing.first() {
        told.client(&rt, "1", oldest, "gave its place to another")?;
    }
    told.client(&rt, "5", &fifth, "connected")?;
    let _before = strangers(&rt, &told)?;
    let mut honest = Vec::new(rt.alloc());
    for _ in 0..4 {
        let mut client = connected(&rt, rt.alloc(), &told.remote)?;
        assert!(rt; bind_by(&mut client, 9)?);
        honest.push(client)?;
    }
    let _behind = strangers(&rt, &told)?;
    for client in &mut honest {
        enquires(&rt, rt.alloc(), client, 1);
    }
    told.remote.stop();
    Ok(())
}

// With the only slot taken each connection is refused, and told of by a line or counted in one.
#[test]
fn connections_that_are_refused(rt: HostRuntime) -> Result<(), Fail> {
    let centre = TcpListener::bind(&rt, "127.0.0.1:0")?;
    let address = format!(in rt.alloc(); "{}", centre.local_addr()?)?;
    let mut told = Told::new(rt, "clients = 1", address)?;
    let _up = bound(&rt, &centre)?;
    told.upstream(&rt, "bound")?;
    let mut client = connected(&rt, rt.alloc(), &told.remote)?;
    told.client(&rt, "1", &client, "connected")?;
    assert!(rt; bind_by(&mut client, 9)?);
    told.client(&rt, "1 alpha", &client, "bound as transceiver")?;
    for _ in 0..REFUSED {
        drop(connected(&rt, rt.alloc(), &told.remote)?);
    }
    let mut told_of = 0_u64;
    let mut any = false;
    for _ in 0..REFUSED {
        let (count, counts) = refused_by(&rt, &mut told);
        told_of = told_of.saturating_add(count);
        any |= counts;
        if told_of >= REFUSED {
            break;
        }
    }
    assert_eq!(rt; told_of, REFUSED);
    assert!(rt; any, "more than twenty lines of a kind in each second");
    told.remote.stop();
    Ok(())
}
