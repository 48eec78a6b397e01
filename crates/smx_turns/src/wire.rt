//! What a worker asks of what its wire answered.
ghost use Rattle.std.specs.Prelude.{◌≡◌, ◌≢◌, true, false};
ghost use Rattle.smx_turns.specs.Wires.{is_end};

use smx_frame::FrameFault;
use smx_link::Polled;

/// Whether the link has ended.
pub fn is_end(polled: Polled) -> bool
    ensures { result ≡ is_end polled }
{
    matches!(polled, Polled::End)
}

/// Whether memory was wanted, and no bad length was met.
pub fn is_memory(fault: FrameFault) -> bool
    ensures memory { result ≡ true → fault ≡ FrameFault.NoMemory }
    ensures other { result ≡ false → fault ≢ FrameFault.NoMemory }
{
    match fault {
        FrameFault::NoMemory => true,
        FrameFault::Below16 | FrameFault::AboveMax => false,
    }
}
