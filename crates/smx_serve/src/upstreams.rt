//! The links to the centre.
ghost use Rattle.std.specs.Prelude.{◌≡◌, true, IfSome};
ghost use Rattle.smx_pdu.specs.Fields.{IsText};
ghost use Rattle.smx_session.specs.declared.upstream_state.UpstreamState.{UpstreamState};

use crate::entrance::wire;
use mio::Registry;
use smx_config::{BindKind, Upstream};
use smx_session::{Kind, UpstreamBind, UpstreamSession};
use smx_socket::{Socket, SocketLink};
use std::alloc::Global;
use std::io;
use std::net::{Net, SocketAddr};
use std::rc::Rc;

// Whether a text is that of a bind, below this length and with no octet 0. A configuration's are.
fn is_text(text: &[u8], limit: usize) -> bool
    ensures { result ≡ true → IsText limit text.now }
{
    text.len() < limit && !text.contains(&0)
}

// As what the proxy binds there.
fn kind_of(bind: BindKind) -> Kind {
    match bind {
        BindKind::Transceiver => Kind::Trx,
        BindKind::Transmitter => Kind::Tx,
        BindKind::Receiver => Kind::Rx,
    }
}

// A copy of a text of a bind. None where it is too long for that, has an octet 0, or there is no memory.
fn copy_of(alloc: Global, text: &str, limit: usize) -> Option<Vec<u8>>
    ensures { IfSome result (λ copy. IsText limit copy.items) }
{
    let octets = text.as_bytes();
    if !is_text(octets, limit) {
        return None;
    }
    Vec::from_slice(alloc, octets).ok()
}

/// The session of an upstream's bind, with this silence before an enquiry. None where there is no memory
/// for its texts.
pub(crate) fn session_of(
    alloc: Global,
    upstream: &Upstream,
    enquire: u64,
    now: u64,
) -> Option<UpstreamSession>
    ensures { IfSome result (λ s. s.state ≡ UpstreamState.Binding) }
{
    let bind = UpstreamBind {
        kind: kind_of(upstream.bind),
        system_id: copy_of(alloc, upstream.system_id.as_str(), 16)?,
        password: copy_of(alloc, upstream.password.as_str(), 9)?,
        system_type: copy_of(alloc, upstream.system_type.as_str(), 13)?,
        interface_version: upstream.interface_version,
        address_range: copy_of(alloc, upstream.address_range.as_str(), 41)?,
    };
    Some(UpstreamSession::new(alloc, bind, enquire, now))
}

// A connection to this address that is begun, which the loop knows by this lane. It waits for nothing.
// Where there is none, the system's reason, if it is one.
pub(crate) fn connect<R: Net>(
    rt: &R,
    alloc: Global,
    registry: &Registry,
    address: SocketAddr,
    lane: usize,
) -> Result<(Rc<Socket>, SocketLink), Option<io::Error>> {
    match mio::net::TcpStream::connect(rt, address) {
        Ok(stream) => wire(alloc, registry, stream, lane).ok_or(None),
        Err(error) => Err(Some(error)),
    }
}
