//! A text written to its end.
ghost use Rattle.std.specs.Prelude.{◌≡◌, ℕ, List, ◌++◌, ◌∷◌, OnOk, OnErr};
ghost use Rattle.std.specs.Io.KnownBytes.{Appends};

use std::io::Write;
use thiserror::Error;

/// The writer failed, or took no octet of some.
#[derive(Clone, Copy, Debug, PartialEq, Eq, Error)]
#[error("the output could not be written")]
pub struct WriteFault;

/// Writes a whole text, or a front of it that lacks at least one octet, and then fails. The writer
/// isn't flushed, and no memory is taken.
pub fn write_text<W: Write>(writer: &mut W, text: &[u8]) -> Result<(), WriteFault>
    ensures ok { OnOk result (Appends (W.contents writer.old) (W.contents writer.new) text.now) }

    // At least one octet was left.
    ensures err { OnErr result ((front : List ℕ) × (octet : ℕ) × (back : List ℕ)
        × (text.now ≡ front ++ octet ∷ back)
        × Appends (W.contents writer.old) (W.contents writer.new) front) }
{
    let mut rest = text;
    while !rest.is_empty() {
        match writer.write(rest) {
            Ok(count) => {
                if count == 0 {
                    return Err(WriteFault);
                }
                rest = &rest[count..];
            }
            Err(_) => return Err(WriteFault),
        }
    }
    Ok(())
}
