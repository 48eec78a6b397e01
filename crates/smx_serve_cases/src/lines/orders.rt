//! Lines of what a running proxy is asked for, and of binds that are refused.
use super::told::Told;
use super::upstreams::LONG;
use crate::loopback::{BIND, BOUND};
use crate::stage::{Header, bound, comes, connected};
use smx_config::{Config, read};
use std::alloc::Global;
use std::io::Write;
use std::net::{TcpListener, TcpStream};
use std::process::Abort;
use std::test::Fail;

// Commands (SMPP 3.4, section 5.1.2.1) and statuses (section 5.1.3).
const BIND_TRANSCEIVER: u32 = 0x0000_0009;

const UNBIND: u32 = 0x0000_0006;

const ESME_RINVCMDLEN: u32 = 0x02;

const ESME_RINVPASWD: u32 = 0x0E;

const ESME_RINVSYSID: u32 = 0x0F;

// Bodies of a bind_transceiver (section 4.1.5): of a name that nobody has, of alpha with another password
// than its own and with what it is behind a reload, and one that ends within the password.
const NOBODY: &[u8] = b"no\nbody\x00p\x00\x00\x34\x00\x00\x00";

const WRONG: &[u8] = b"alpha\x00q\x00\x00\x34\x00\x00\x00";

const SHORT: &[u8] = b"alpha\x00q";

// A bind_transceiver with this body.
fn bind_with(stream: &mut TcpStream, body: &[u8]) -> Result<(), Fail> {
    let length = u32::try_from(body.len().saturating_add(16)).unwrap_or(0);
    stream.write_all(&length.to_be_bytes())?;
    stream.write_all(b"\x00\x00\x00\x09\x00\x00\x00\x00\x00\x00\x00\x07")?;
    stream.write_all(body)?;
    Ok(())
}

// The bind is refused with this status.
fn is_refused(alloc: Global, stream: &mut TcpStream, status: u32) -> bool {
    let answer = Header {
        command: 0x8000_0000 | BIND_TRANSCEIVER,
        status,
        number: 7,
    };
    answer.is_heard(alloc, stream)
}

// The proxy's unbind comes, which is answered (section 4.2), under a number that no message bears.
fn is_unbound(rt: &impl Abort, alloc: Global, stream: &mut TcpStream) -> Result<(), Fail> {
    let unbind = Header {
        command: UNBIND,
        status: 0,
        number: 0x7FFF_FFFF,
    };
    assert!(rt; unbind.is_heard(alloc, stream));
    stream.write_all(b"\x00\x00\x00\x10\x80\x00\x00\x06\x00\x00\x00\x00\x7f\xff\xff\xff")?;
    Ok(())
}

fn address_of(rt: &HostRuntime, listener: &TcpListener) -> Result<String, Fail> {
    Ok(format!(in rt.alloc(); "{}", listener.local_addr()?)?)
}

// Each way in which a bind is refused, two and then one that isn't over one connection, and three over another,
// which is closed behind them.
#[test]
fn binds_that_are_refused(rt: HostRuntime) -> Result<(), Fail> {
    let centre = TcpListener::bind(&rt, "127.0.0.1:0")?;
    let mut told = Told::new(rt, LONG, address_of(&rt, &centre)?)?;
    let _up = bound(&rt, &centre)?;
    told.upstream(&rt, "bound")?;
    let mut client = connected(&rt, rt.alloc(), &told.remote)?;
    told.client(&rt, "1", &client, "connected")?;
    bind_with(&mut client, NOBODY)?;
    assert!(rt; is_refused(rt.alloc(), &mut client, ESME_RINVSYSID));
    let words = "bind as \"no\\nbody\" refused, 0x0F ESME_RINVSYSID: no such account";
    told.client(&rt, "1", &client, words)?;
    bind_with(&mut client, WRONG)?;
    assert!(rt; is_refused(rt.alloc(), &mut client, ESME_RINVPASWD));
    told.client(&rt, "1 alpha", &client, "bind refused, 0x0E ESME_RINVPASWD")?;
    client.write_all(BIND)?;
    assert!(rt; comes(&mut client, BOUND));
    told.client(&rt, "1 alpha", &client, "bound as transceiver")?;
    let mut other = connected(&rt, rt.alloc(), &told.remote)?;
    told.client(&rt, "2", &other, "connected")?;
    let address = other.local_addr()?;
    for _ in 0..3 {
        bind_with(&mut other, SHORT)?;
        assert!(rt; is_refused(rt.alloc(), &mut other, ESME_RINVCMDLEN));
        told.client(
            &rt,
            "2",
            &other,
            "bind refused, 0x02 ESME_RINVCMDLEN: its body can't be read",
        )?;
    }
    let line = format!(in rt.alloc(); "client 2 at {address}: hung up, three refused binds")?;
    told.lines.says(&rt, line.as_str());
    told.stops(&rt);
    told.client(&rt, "1 alpha", &client, "answered no unbind")?;
    told.is_over(&rt);
    Ok(())
}

// How all stands: an upstream that is bound, a client that is, and one that isn't. The lane was lowered
// and came up, and both clients were admitted.
#[test]
fn how_all_stands(rt: HostRuntime) -> Result<(), Fail> {
    let centre = TcpListener::bind(&rt, "127.0.0.1:0")?;
    let address = address_of(&rt, &centre)?;
    let up = format!(in rt.alloc(); "status: upstream 0 proxy at {address}: bound for ")?;
    let mut told = Told::new(rt, LONG, address)?;
    let _up = bound(&rt, &centre)?;
    told.upstream(&rt, "bound")?;
    let mut first = connected(&rt, rt.alloc(), &told.remote)?;
    told.client(&rt, "1", &first, "connected")?;
    first.write_all(BIND)?;
    assert!(rt; comes(&mut first, BOUND));
    told.client(&rt, "1 alpha", &first, "bound as transceiver")?;
    let second = connected(&rt, rt.alloc(), &told.remote)?;
    told.client(&rt, "2", &second, "connected")?;
    told.remote.tell();
    told.lines.says_time(
        &rt,
        up.as_str(),
        " ms, 0 queued, 0 under way, 4 entries of history",
    );
    for (name, stream, kind) in [
        ("1 alpha", &first, "transceiver"),
        ("2", &second, "not bound"),
    ] {
        let address = stream.local_addr()?;
        let line = format!(in rt.alloc();
            "status: client {name} at {address}: {kind}, connected for "
        )?;
        told.lines.says_time(
            &rt,
            line.as_str(),
            " ms, 0 requests under way, 0 messages unanswered, 0 octets wait",
        );
    }
    told.lines
        .says(&rt, "status: 2 of 8 slots are taken, 0 of them close");
    told.lines.says(&rt, "status: 0 requests under way");
    told.remote.stop();
    Ok(())
}

// A configuration whose upstream is at this address, with another number of clients than the default, and
// another password of the account alpha.
fn other_config(alloc: Global, centre: &str) -> Result<Config, Fail> {
    let text = format!(in alloc;
        "listen = \"127.0.0.1:0\"\nclients = 9\n[[upstream]]\naddress = \"{centre}\"\nsystem_id = \"proxy\"\npassword = \"pw\"\n[[account]]\nsystem_id = \"alpha\"\npassword = \"q\"\n"
    )?;
    Ok(read(alloc, text.as_str())?)
}

// A password that is another one when the file is read again: who is bound is unbound, who isn't bound yet is
// let go, and from then on the old one is refused.
#[test]
fn a_configuration_that_is_read_again(rt: HostRuntime) -> Result<(), Fail> {
    let centre = TcpListener::bind(&rt, "127.0.0.1:0")?;
    let address = address_of(&rt, &centre)?;
    let config = other_config(rt.alloc(), address.as_str())?;
    let mut told = Told::new(rt, LONG, address)?;
    let _up = bound(&rt, &centre)?;
    told.upstream(&rt, "bound")?;
    let mut first = connected(&rt, rt.alloc(), &told.remote)?;
    told.client(&rt, "1", &first, "connected")?;
    first.write_all(BIND)?;
    assert!(rt; comes(&mut first, BOUND));
    told.client(&rt, "1 alpha", &first, "bound as transceiver")?;
    let second = connected(&rt, rt.alloc(), &told.remote)?;
    told.client(&rt, "2", &second, "connected")?;
    told.remote.reload(&rt, config);
    told.lines
        .says(&rt, "the configuration was read again, 1 account");
    told.lines
        .says(&rt, "another clients in the file wants a restart");
    let words = "its password is another one now; it is unbound";
    told.client(&rt, "1 alpha", &first, words)?;
    let words = "let go before its bind, as the accounts changed";
    told.client(&rt, "2", &second, words)?;
    is_unbound(&rt, rt.alloc(), &mut first)?;
    told.client(&rt, "1 alpha", &first, "unbound")?;
    let mut third = connected(&rt, rt.alloc(), &told.remote)?;
    told.client(&rt, "3", &third, "connected")?;
    third.write_all(BIND)?;
    let header = Header {
        command: 0x8000_0000 | BIND_TRANSCEIVER,
        status: ESME_RINVPASWD,
        number: 1,
    };
    assert!(rt; header.is_heard(rt.alloc(), &mut third));
    told.client(&rt, "3 alpha", &third, "bind refused, 0x0E ESME_RINVPASWD")?;
    bind_with(&mut third, WRONG)?;
    told.client(&rt, "3 alpha", &third, "bound as transceiver")?;
    told.remote.stop();
    Ok(())
}
