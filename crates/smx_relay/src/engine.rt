//! A whole run: the script is read, and then run line by line.
ghost use Rattle.std.specs.Prelude.{◌≡◌, ℕ, List, map, IfSome};
ghost use Rattle.std.specs.Io.KnownBytes.{Appends};
ghost use Rattle.smx_script.specs.Script.{lines_of};
ghost use Rattle.smx_lines.specs.Relay.{new_relay};
ghost use Rattle.smx_lines.specs.States.{StandsFor};
ghost use Rattle.smx_relay.specs.Ends.{Ends};

use crate::end::RunEnd;
use crate::size::is_too_large;
use smx_lines::{State, bad_line, new_state, reason, run_line};
use smx_script::lines_of;
use smx_whole_text::{ReadFault, read_octets, write_text};
use std::alloc::Global;
use std::io::{Read, Write};

/// The most octets that a script has.
const MAX_SCRIPT: usize = 1_048_576;

// Runs the lines of a script on the state before the first.
fn relay_lines<W: Write>(
    alloc: Global,
    state: &mut State,
    lines: &[&[u8]],
    writer: &mut W,
) -> RunEnd
    requires { StandsFor state.old new_relay }
    ensures { (script : List ℕ) → map (λ line. line.now) lines.now ≡ lines_of script
        → (out : List ℕ) × Appends (W.contents writer.old) (W.contents writer.new) out
        × Ends result script out }
{
    for (i, line) in lines.iter().enumerate() {
        if is_too_large(state) {
            return RunEnd::TooLarge(i as u64 + 1);
        }
        match run_line(alloc, state, line) {
            Ok(Some(text)) => match write_text(writer, &text) {
                Ok(()) => {}
                Err(_) => return RunEnd::WriteFault,
            },
            Ok(None) => {
                let number = i as u64 + 1;
                let Ok(text) = bad_line(alloc, number) else {
                    return RunEnd::NoMemory;
                };
                match write_text(writer, text.as_bytes()) {
                    Ok(()) => return RunEnd::BadLine(number, reason(alloc, state, line)),
                    Err(_) => return RunEnd::WriteFault,
                }
            }
            Err(_) => return RunEnd::NoMemory,
        }
    }
    RunEnd::Clean
}

// Runs a script that was read, on the state before the first line.
fn relay<W: Write>(alloc: Global, state: &mut State, script: &[u8], writer: &mut W) -> RunEnd
    requires { StandsFor state.old new_relay }
    ensures { (out : List ℕ) × Appends (W.contents writer.old) (W.contents writer.new) out
        × Ends result script.now out }
{
    let Ok(lines) = lines_of(alloc, script) else {
        return RunEnd::NoMemory;
    };
    relay_lines(alloc, state, lines.as_slice(), writer)
}

/// Reads a script whole, runs it on a state that was just made, and writes what its lines print, up to and with the
/// first bad line. Where writing fails, memory runs out or the run would be too large, a front of that was written.
/// The writer isn't flushed. The state has all that the lines reserved; a program that ends next may forget it, since
/// to free it can take as long as the run.
pub fn run_on<R: Read, W: Write>(
    alloc: Global,
    state: &mut State,
    reader: &mut R,
    writer: &mut W,
) -> RunEnd
    requires { StandsFor state.old new_relay }
    ensures { IfSome (R.remaining reader.old) (λ script. (out : List ℕ)
        × Appends (W.contents writer.old) (W.contents writer.new) out × Ends result script out) }
{
    match read_octets(alloc, reader, MAX_SCRIPT) {
        Ok(script) => relay(alloc, state, &script, writer),
        Err(ReadFault::TooLong) => RunEnd::TooLong,
        Err(ReadFault::Failed) => RunEnd::ReadFault,
        Err(ReadFault::NoMemory) => RunEnd::NoMemory,
    }
}

/// The same on a state of its own, which is freed.
pub fn run<R: Read, W: Write>(alloc: Global, reader: &mut R, writer: &mut W) -> RunEnd
    ensures { IfSome (R.remaining reader.old) (λ script. (out : List ℕ)
        × Appends (W.contents writer.old) (W.contents writer.new) out × Ends result script out) }
{
    match new_state(alloc) {
        Ok(mut state) => run_on(alloc, &mut state, reader, writer),
        Err(_) => RunEnd::NoMemory,
    }
}
