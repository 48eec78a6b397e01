//! A reader read to its end.
ghost use Rattle.std.specs.Prelude.{◌≡◌, ◌<◌, ◌≤◌, ℕ, List, length, IfOk, IsErrOf, IfSome};
ghost use Rattle.std.specs.Io.KnownBytes.{Consumes, IsAtEnd};

use std::alloc::Global;
use std::io::Read;
use thiserror::Error;

/// Why a reader gives no octets.
#[derive(Clone, Copy, Debug, PartialEq, Eq, Error)]
pub enum ReadFault {
    /// It has more octets than may be read.
    #[error("there are too many octets")]
    TooLong,
    /// A read failed.
    #[error("the octets can't be read")]
    Failed,
    /// Memory was refused.
    #[error("out of memory")]
    NoMemory,
}

/// All octets that a reader has, unless they are more than `most`. It is read in pieces of at most
/// 4,096 octets, and takes memory for what it has.
pub fn read_octets<R: Read>(
    alloc: Global,
    reader: &mut R,
    most: usize,
) -> Result<Vec<u8>, ReadFault>
    ensures ok { IfOk result (λ octets. IfSome (R.remaining reader.old)
        (λ all. octets.items ≡ all)) }
    ensures short { IfOk result (λ octets. length octets.items ≤ most) }
    ensures too_long { IsErrOf result ReadFault.TooLong
        → IfSome (R.remaining reader.old) (λ all. most < length all) }

    // Where a read failed, no more was read before than may be.
    ensures failed { IsErrOf result ReadFault.Failed → (front : List ℕ) × (length front ≤ most)
        × Consumes (R.remaining reader.old) (R.remaining reader.new) front }
{
    let mut octets = Vec::new(alloc);
    let mut piece = [0u8; 4096];
    for _ in 0..=most {
        let Ok(count) = reader.read(&mut piece) else {
            return Err(ReadFault::Failed);
        };
        if count == 0 {
            return Ok(octets);
        }
        if octets.extend_from_slice(&piece[..count]).is_err() {
            return Err(ReadFault::NoMemory);
        }
        if octets.len() > most {
            return Err(ReadFault::TooLong);
        }
    }
    Err(ReadFault::TooLong)
}
