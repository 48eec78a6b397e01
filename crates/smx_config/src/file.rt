//! The text of a configuration's file.
ghost use Rattle.std.specs.Prelude.{◌≡◌, ◌<◌, ◌≤◌, ℕ, List, length, IfOk, IsErrOf, IfSome, IsUtf8, string_bytes};
ghost use Rattle.std.specs.Io.KnownBytes.{Consumes};

use smx_whole_text::{ReadFault, read_octets};
use std::alloc::Global;
use std::io::Read;
use thiserror::Error;

/// The most octets that the file of a configuration has.
pub const MAX_FILE: usize = 1_048_576;

/// Why a file gives no text.
#[derive(Clone, Copy, Debug, PartialEq, Eq, Error)]
pub enum FileFault {
    /// It can't be opened or read.
    #[error("the file can't be read")]
    Failed,
    /// It has more than 1,048,576 octets.
    #[error("the file has more than 1,048,576 octets")]
    TooLong,
    /// Its octets are no UTF-8.
    #[error("the file isn't UTF-8")]
    NotUtf8,
    /// Memory was refused.
    #[error("out of memory")]
    NoMemory,
}

/// The text that a reader has.
pub fn read_text<R: Read>(alloc: Global, reader: &mut R) -> Result<String, FileFault>
    ensures ok { IfOk result (λ text. IfSome (R.remaining reader.old)
        (λ file. string_bytes text ≡ file)) }
    ensures short { IfOk result (λ text. length (string_bytes text) ≤ 1048576) }
    ensures too_long { IsErrOf result FileFault.TooLong
        → IfSome (R.remaining reader.old) (λ file. 1048576 < length file) }
    ensures not_utf8 { IsErrOf result FileFault.NotUtf8
        → IfSome (R.remaining reader.old) (λ file. ¬ (IsUtf8 file)) }

    // Where reading failed, no more was read before than a file may have.
    ensures failed { IsErrOf result FileFault.Failed → (front : List ℕ) × (length front ≤ 1048576)
        × Consumes (R.remaining reader.old) (R.remaining reader.new) front }
{
    let octets = match read_octets(alloc, reader, MAX_FILE) {
        Ok(octets) => octets,
        Err(ReadFault::Failed) => return Err(FileFault::Failed),
        Err(ReadFault::TooLong) => return Err(FileFault::TooLong),
        Err(ReadFault::NoMemory) => return Err(FileFault::NoMemory),
    };
    match String::from_utf8(octets) {
        Ok(text) => Ok(text),
        Err(_) => Err(FileFault::NotUtf8),
    }
}
