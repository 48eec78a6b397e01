//! A message of the centre on its way to a client.

use smx_pdu::Pdu;

/// A message of the centre, for the client with this number, from the lane and with the number that
/// the lane's worker gave it.
#[derive(Debug, Drop)]
pub struct MoItem {
    pub client: u64,
    pub lane: usize,
    pub number: u32,
    pub pdu: Pdu,
}
