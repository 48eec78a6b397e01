use self::Step::{CentreHears, CentreSays, ClientHears, ClientSays};
use crate::stage::{Running, bound, comes, config_for, connected};
use smx_serve::Remote;
use std::alloc::Global;
use std::io::Write;
use std::net::{Net, TcpListener, TcpStream};
use std::process::Abort;
use std::test::Fail;

// The bind of the account alpha as transceiver, and its answer (SMPP 3.4, sections 4.1.5 and 4.1.6).
pub(crate) const BIND: &[u8] =
    b"\x00\x00\x00\x1d\x00\x00\x00\x09\x00\x00\x00\x00\x00\x00\x00\x01alpha\x00p\x00\x00\x34\x00\x00\x00";

pub(crate) const BOUND: &[u8] =
    b"\x00\x00\x00\x19\x80\x00\x00\x09\x00\x00\x00\x00\x00\x00\x00\x01smx\x00\x02\x10\x00\x01\x34";

// A submit_sm of the client with number 7, the same upstream with number 1, and both responses.
pub(crate) const SUBMIT: &[u8] =
    b"\x00\x00\x00\x22\x00\x00\x00\x04\x00\x00\x00\x00\x00\x00\x00\x07\x00\x00\x00\x00\x00\x001\x00\x00\x00\x00\x00\x00\x00\x00\x00\x00\x00";

pub(crate) const SENT: &[u8] =
    b"\x00\x00\x00\x22\x00\x00\x00\x04\x00\x00\x00\x00\x00\x00\x00\x01\x00\x00\x00\x00\x00\x001\x00\x00\x00\x00\x00\x00\x00\x00\x00\x00\x00";

const RESPONSE: &[u8] = b"\x00\x00\x00\x12\x80\x00\x00\x04\x00\x00\x00\x00\x00\x00\x00\x011\x00";

const COLLECTED: &[u8] = b"\x00\x00\x00\x12\x80\x00\x00\x04\x00\x00\x00\x00\x00\x00\x00\x071\x00";

// A deliver_sm of the centre with number 3 for 4915, as the client gets it, its answer and the
// answer as the centre gets it.
const MESSAGE: &[u8] =
    b"\x00\x00\x00\x25\x00\x00\x00\x05\x00\x00\x00\x00\x00\x00\x00\x03\x00\x00\x00\x00\x00\x004915\x00\x00\x00\x00\x00\x00\x00\x00\x00\x00\x00";

const DELIVERED: &[u8] =
    b"\x00\x00\x00\x25\x00\x00\x00\x05\x00\x00\x00\x00\x00\x00\x00\x01\x00\x00\x00\x00\x00\x004915\x00\x00\x00\x00\x00\x00\x00\x00\x00\x00\x00";

const TAKEN: &[u8] = b"\x00\x00\x00\x11\x80\x00\x00\x05\x00\x00\x00\x00\x00\x00\x00\x01\x00";

const TAKEN_UP: &[u8] = b"\x00\x00\x00\x11\x80\x00\x00\x05\x00\x00\x00\x00\x00\x00\x00\x03\x00";

pub(crate) const UNBIND: &[u8] =
    b"\x00\x00\x00\x10\x00\x00\x00\x06\x00\x00\x00\x00\x00\x00\x00\x08";

pub(crate) const UNBOUND: &[u8] =
    b"\x00\x00\x00\x10\x80\x00\x00\x06\x00\x00\x00\x00\x00\x00\x00\x08";

// The proxy's own unbind (section 4.2), and the centre's answer.
pub(crate) const OWN_UNBIND: &[u8] =
    b"\x00\x00\x00\x10\x00\x00\x00\x06\x00\x00\x00\x00\x7f\xff\xff\xff";

pub(crate) const OWN_UNBOUND: &[u8] =
    b"\x00\x00\x00\x10\x80\x00\x00\x06\x00\x00\x00\x00\x7f\xff\xff\xff";

// What the client or the centre does: it says octets, or these come to it next.
#[derive(Clone, Copy)]
enum Step {
    ClientSays(&'static [u8]),
    ClientHears(&'static [u8]),
    CentreSays(&'static [u8]),
    CentreHears(&'static [u8]),
}

const WALK: [Step; 12] = [
    ClientSays(BIND),
    ClientHears(BOUND),
    ClientSays(SUBMIT),
    CentreHears(SENT),
    CentreSays(RESPONSE),
    ClientHears(COLLECTED),
    CentreSays(MESSAGE),
    ClientHears(DELIVERED),
    ClientSays(TAKEN),
    CentreHears(TAKEN_UP),
    ClientSays(UNBIND),
    ClientHears(UNBOUND),
];

// The proxy stops in order.
const STOP: [Step; 2] = [CentreHears(OWN_UNBIND), CentreSays(OWN_UNBOUND)];

fn holds(client: &mut TcpStream, up: &mut TcpStream, step: Step) -> bool {
    match step {
        ClientSays(octets) => client.write_all(octets).is_ok(),
        ClientHears(octets) => comes(client, octets),
        CentreSays(octets) => up.write_all(octets).is_ok(),
        CentreHears(octets) => comes(up, octets),
    }
}

fn play(rt: &impl Abort, client: &mut TcpStream, up: &mut TcpStream, steps: &[Step]) {
    for at in 0..steps.len() {
        assert!(rt;
            holds(client, up, steps[at]),
            "step {at} of {}",
            steps.len()
        );
    }
}

// The walk and the stop, and the links that they went over.
pub(crate) fn walk<R: Net<Stream = TcpStream> + Abort>(
    rt: &R,
    alloc: Global,
    centre: &TcpListener,
    remote: &Remote,
) -> Result<(TcpStream, TcpStream), Fail> {
    let mut up = bound(rt, centre)?;
    let mut client = connected(rt, alloc, remote)?;
    play(rt, &mut client, &mut up, &WALK);
    remote.stop();
    play(rt, &mut client, &mut up, &STOP);
    Ok((up, client))
}

// A request, its response, a message of the centre and its answer go the whole way over sockets;
// then the proxy stops in order.
#[test]
fn a_message_goes_both_ways(rt: HostRuntime) -> Result<(), Fail> {
    let centre = TcpListener::bind(&rt, "127.0.0.1:0")?;
    let config = config_for(rt.alloc(), &centre, 30_000)?;
    let proxy = Running::of(rt, config)?;
    let _links = walk(&rt, rt.alloc(), &centre, &proxy.remote)?;
    proxy.is_over(&rt);
    Ok(())
}
