//! The proxy's own bind to a centre.
ghost use Rattle.std.specs.Prelude.{◌≡◌};
ghost use Rattle.smx_session.specs.Binds.{transceiver_bind};

use crate::kind::Kind;
use std::alloc::Global;
use std::fmt;
use std::marker::Model;

/// What the proxy's own bind to a centre says (SMPP 3.4, section 4.1). The texts are without their
/// ending 0. Printed for debugging it has none of them, so that no password is seen.
#[derive(Drop)]
pub struct UpstreamBind {
    /// bind_transmitter, bind_receiver or bind_transceiver.
    pub kind: Kind,
    /// At most 15 octets.
    pub system_id: Vec<u8>,
    /// At most 8 octets.
    pub password: Vec<u8>,
    /// At most 12 octets.
    pub system_type: Vec<u8>,
    /// 0x34 for SMPP 3.4.
    pub interface_version: u8,
    /// At most 40 octets. It goes out with the type of number and the numbering plan 0.
    pub address_range: Vec<u8>,
}

impl Model for UpstreamBind {
    ghost use Rattle.smx_session.specs.Login.{OwnBind};

    ghost Value = { OwnBind };

    ghost view = { λ b. record {
      kind = b.kind;
      system_id = b.system_id.items;
      password = b.password.items;
      system_type = b.system_type.items;
      interface_version = b.interface_version;
      address_range = b.address_range.items;
    } };
}

impl fmt::Debug for UpstreamBind {
    fn fmt<W: fmt::Write>(&self, f: &mut fmt::Formatter<W>) -> fmt::Result {
        f.write_str("UpstreamBind")
    }
}

impl UpstreamBind {
    /// bind_transceiver of SMPP 3.4 that says nothing else. It takes no memory.
    pub fn transceiver(alloc: Global, system_id: Vec<u8>, password: Vec<u8>) -> UpstreamBind
        ensures { result ≡ transceiver_bind system_id.items password.items }
    {
        UpstreamBind {
            kind: Kind::Trx,
            system_id,
            password,
            system_type: Vec::new(alloc),
            interface_version: 0x34,
            address_range: Vec::new(alloc),
        }
    }
}
