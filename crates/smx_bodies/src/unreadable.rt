//! Why a body can't be read.
ghost use Rattle.std.specs.Prelude.{◌≡◌};
ghost use Rattle.smx_bodies.specs.Reading.{status_of};

use smx_pdu::status::{ESME_RINVCMDLEN, ESME_RINVMSGLEN};
use thiserror::Error;

/// Why a request's body can't be read, by the first part at fault.
#[derive(Clone, Copy, Debug, PartialEq, Eq, Error)]
pub enum Unreadable {
    /// sm_length is above 254, or the octets that it counts aren't there.
    #[error("the short message isn't as long as its length says")]
    ShortMessage,
    /// Any other field isn't there, has no end or is too long, or what follows the fields is no
    /// optional parameter.
    #[error("the body isn't the fields of its command")]
    Fields,
}

impl Unreadable {
    /// ESME_RINVMSGLEN 0x01 or ESME_RINVCMDLEN 0x02 (section 5.1.3).
    pub fn status(self) -> u32
        ensures { result ≡ status_of self }
    {
        match self {
            Unreadable::ShortMessage => ESME_RINVMSGLEN,
            Unreadable::Fields => ESME_RINVCMDLEN,
        }
    }
}
