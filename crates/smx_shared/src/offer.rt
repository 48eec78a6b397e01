//! What a client asks a port to send.
ghost use Rattle.std.specs.Prelude.{◌≡◌, true};
ghost use Rattle.smx_pdu.specs.Command.{is_forwarded};

use smx_pdu::Body;

/// A request without its client and its ordinal.
#[derive(Debug, Drop)]
pub struct Offer {
    /// The client's own sequence number, which may repeat.
    pub own: u32,
    /// One of the six commands that are passed on to the message centre.
    pub command: u32,
    pub body: Body,
    ghost forwarded: { is_forwarded command ≡ true },
}
