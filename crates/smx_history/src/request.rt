//! A client's request.
ghost use Rattle.std.specs.Prelude.{◌≡◌, true};
ghost use Rattle.smx_pdu.specs.Command.{is_forwarded};

use smx_pdu::Body;

/// A request as a client handed it in. Its name is its client and its ordinal.
#[derive(Debug, Drop)]
pub struct Request {
    pub client: u64,
    pub ordinal: u64,
    /// The client's own sequence number, which may repeat.
    pub own: u32,
    /// One of the six commands that are passed on to the message centre.
    pub command: u32,
    pub body: Body,
    ghost forwarded: { is_forwarded command ≡ true },
}
