//! Lines of an upstream.
use super::clients::enquires;
use super::told::Told;
use crate::loopback::{BIND, BOUND, OWN_UNBIND, OWN_UNBOUND, SENT, SUBMIT};
use crate::stage::{OWN_BOUND, binding, bound, comes, connected, patient};
use std::io::Write;
use std::net::TcpListener;
use std::process::Abort;
use std::test::Fail;

// What the centre says once it is bound, whether it closes the connection then, and how that is told.
const ENDS: [(&[u8], bool, &str); 3] = [
    (b"", true, "ended, it closed the connection"),
    (
        b"\x00\x00\x00\x10\x00\x00\x00\x06\x00\x00\x00\x00\x00\x00\x00\x01",
        false,
        "ended, it unbound",
    ),
    (
        b"\x00\x00\x00\x07\x00\x00\x00\x15\x00\x00\x00\x00\x00\x00\x00\x01",
        false,
        "ended, it sent a bad length",
    ),
];

// The centre's answer to the bind with status 0x0D ESME_RBINDFAIL (SMPP 3.4, section 5.1.3).
const REFUSAL: &[u8] = b"\x00\x00\x00\x10\x80\x00\x00\x09\x00\x00\x00\x0d\x7f\xff\xff\xfd";

// The keys of a pause that never passes.
pub(crate) const LONG: &str = "[timers]\nreconnect = 60000";

// That pause, and up to a tenth more, in milliseconds.
const PAUSE: (u64, u64) = (60_000, 66_000);

// It is tried again after a pause within these milliseconds.
fn waits_within<R: Abort + AllocGlobal>(
    rt: &R,
    told: &mut Told,
    words: &str,
    (least, most): (u64, u64),
) -> Result<(), Fail> {
    let wait = told.upstream_waits(rt, words, "tried")?;
    assert!(rt;
        least <= wait && wait <= most,
        "it is tried again in {wait} ms"
    );
    Ok(())
}

fn address_of(rt: &HostRuntime, listener: &TcpListener) -> Result<String, Fail> {
    Ok(format!(in rt.alloc(); "{}", listener.local_addr()?)?)
}

// Each way in which a centre ends a link that was bound.
#[test]
fn links_that_end(rt: HostRuntime) -> Result<(), Fail> {
    for (octets, closes, words) in ENDS {
        let centre = TcpListener::bind(&rt, "127.0.0.1:0")?;
        let mut told = Told::new(rt, LONG, address_of(&rt, &centre)?)?;
        let mut up = bound(&rt, &centre)?;
        told.upstream(&rt, "bound")?;
        up.write_all(octets)?;
        let kept = if closes {
            drop(up);
            None
        } else {
            Some(up)
        };
        let words = format!(in rt.alloc(); "{words}; 0 requests failed")?;
        waits_within(&rt, &mut told, words.as_str(), PAUSE)?;
        told.stops(&rt);
        told.is_over(&rt);
        drop(kept);
    }
    Ok(())
}

// A bind that is refused, and one that isn't answered.
#[test]
fn binds_that_fail(rt: HostRuntime) -> Result<(), Fail> {
    let centre = TcpListener::bind(&rt, "127.0.0.1:0")?;
    let mut told = Told::new(rt, LONG, address_of(&rt, &centre)?)?;
    let mut up = binding(&rt, &centre)?;
    up.write_all(REFUSAL)?;
    let words = "bind refused with 0x0D ESME_RBINDFAIL; 0 requests failed";
    waits_within(&rt, &mut told, words, PAUSE)?;
    told.stops(&rt);
    told.is_over(&rt);
    let keys = "silence = 300\n[timers]\nreconnect = 60000";
    let mut told = Told::new(rt, keys, address_of(&rt, &centre)?)?;
    let _up = binding(&rt, &centre)?;
    let words = "answered no bind; 0 requests failed";
    waits_within(&rt, &mut told, words, PAUSE)?;
    told.remote.stop();
    Ok(())
}

// A centre that resets the connection, which the system does where octets that came weren't read.
#[test]
fn a_link_that_fails(rt: HostRuntime) -> Result<(), Fail> {
    let centre = TcpListener::bind(&rt, "127.0.0.1:0")?;
    let mut told = Told::new(rt, LONG, address_of(&rt, &centre)?)?;
    let (up, _) = centre.accept()?;
    let mut up = patient(up)?;
    let mut octet = [0u8; 1];
    assert_eq!(rt; up.peek(&mut octet)?, 1);
    up.write_all(OWN_BOUND)?;
    told.upstream(&rt, "bound")?;
    drop(up);
    let words = "ended, the link failed; 0 requests failed";
    waits_within(&rt, &mut told, words, PAUSE)?;
    told.stops(&rt);
    told.is_over(&rt);
    Ok(())
}

// A centre that says nothing once it is bound: after the silence it is enquired, and after another the
// link is given up.
#[test]
fn a_link_that_is_silent(rt: HostRuntime) -> Result<(), Fail> {
    let centre = TcpListener::bind(&rt, "127.0.0.1:0")?;
    let keys = "[timers]\nenquire = 2000\nreconnect = 60000";
    let mut told = Told::new(rt, keys, address_of(&rt, &centre)?)?;
    let _up = bound(&rt, &centre)?;
    told.upstream(&rt, "bound")?;
    let words = "ended, it answered no enquire_link; 0 requests failed";
    waits_within(&rt, &mut told, words, PAUSE)?;
    told.remote.stop();
    Ok(())
}

// An address where nobody listens: each pause is twice the one before, up to the longest.
#[test]
fn an_upstream_that_is_nowhere(rt: HostRuntime) -> Result<(), Fail> {
    let centre = TcpListener::bind(&rt, "127.0.0.1:0")?;
    let address = address_of(&rt, &centre)?;
    drop(centre);
    let keys = "[timers]\nreconnect = 100\nreconnect_most = 250";
    let mut told = Told::new(rt, keys, address)?;
    let words = "can't be reached: Connection refused (os error 111); 0 requests failed";
    for within in [(100, 110), (200, 220), (250, 275), (250, 275)] {
        waits_within(&rt, &mut told, words, within)?;
    }
    told.stops(&rt);
    told.is_over(&rt);
    Ok(())
}

// One request that was sent and one that waits, with a window of 1: the first fails with the link,
// and the other once it has waited long enough for another.
#[test]
fn requests_that_fail(rt: HostRuntime) -> Result<(), Fail> {
    let centre = TcpListener::bind(&rt, "127.0.0.1:0")?;
    let keys = "[limits]\nwindow = 1\n[timers]\nresponse = 3000\nreconnect = 60000";
    let mut told = Told::new(rt, keys, address_of(&rt, &centre)?)?;
    let mut up = bound(&rt, &centre)?;
    told.upstream(&rt, "bound")?;
    let mut client = connected(&rt, rt.alloc(), &told.remote)?;
    told.client(&rt, "1", &client, "connected")?;
    client.write_all(BIND)?;
    assert!(rt; comes(&mut client, BOUND));
    told.client(&rt, "1 alpha", &client, "bound as transceiver")?;
    client.write_all(SUBMIT)?;
    client.write_all(SUBMIT)?;
    enquires(&rt, rt.alloc(), &mut client, 1);
    assert!(rt; comes(&mut up, SENT));
    drop(up);
    let words =
        "ended, it closed the connection; the last request on it was submit_sm of client 1 alpha; 1 request failed";
    waits_within(&rt, &mut told, words, PAUSE)?;
    told.upstream(&rt, "has no link for long, 1 queued request failed")?;
    told.stops(&rt);
    told.client(&rt, "1 alpha", &client, "answered no unbind")?;
    told.is_over(&rt);
    Ok(())
}

// The end in order of a link that is bound.
#[test]
fn an_end_in_order(rt: HostRuntime) -> Result<(), Fail> {
    let centre = TcpListener::bind(&rt, "127.0.0.1:0")?;
    let mut told = Told::new(rt, LONG, address_of(&rt, &centre)?)?;
    let mut up = bound(&rt, &centre)?;
    told.upstream(&rt, "bound")?;
    told.stops(&rt);
    assert!(rt; comes(&mut up, OWN_UNBIND));
    up.write_all(OWN_UNBOUND)?;
    told.upstream(&rt, "unbound")?;
    told.is_over(&rt);
    Ok(())
}

// An address that is in use is tried again, and taken once it is free. A proxy that waits for one can
// be stopped.
#[test]
fn an_address_in_use(rt: HostRuntime) -> Result<(), Fail> {
    let centre = TcpListener::bind(&rt, "127.0.0.1:0")?;
    let other = TcpListener::bind(&rt, "127.0.0.1:0")?;
    let listen = address_of(&rt, &other)?;
    let words = format!(in rt.alloc();
        "listen = \"{listen}\": Address already in use (os error 98); it is tried again every 2 seconds"
    )?;
    let mut told = Told::at(rt, listen.as_str(), LONG, address_of(&rt, &centre)?)?;
    told.lines.says(&rt, words.as_str());
    told.remote.stop();
    told.lines.says(&rt, "stopping");
    told.is_over(&rt);
    let mut told = Told::at(rt, listen.as_str(), LONG, address_of(&rt, &centre)?)?;
    told.lines.says(&rt, words.as_str());
    drop(other);
    let words = format!(in rt.alloc(); "listening on {listen}")?;
    told.lines.says(&rt, words.as_str());
    let _up = bound(&rt, &centre)?;
    told.upstream(&rt, "bound")?;
    told.remote.stop();
    Ok(())
}
