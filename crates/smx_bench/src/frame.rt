//! PDUs from a stream that comes in pieces.

use crate::figures::{Hundredths, nanos_since, no_memory, stopped};
use smx_frame::{FrameFault, Framer};
use std::alloc::{AllocError, Global};
use std::io;
use std::rt::Clock;
use std::time::Instant;

/// The stream's PDUs, each a submit_sm of 100 octets.
const PDUS: u64 = 1_000_000;

const PDU: &[u8; 100] = b"\0\0\0\x64\0\0\0\x04\0\0\0\0\0\0\0\x07aaaaaaaaaaaaaaaaaaaaaaaaaaaa\
    aaaaaaaaaaaaaaaaaaaaaaaaaaaaaaaaaaaaaaaaaaaaaaaaaaaaaaaa";

/// The sizes of pieces: an octet, few octets, an Ethernet segment's payload, and a large read.
const SIZES: [usize; 4] = [1, 7, 1_460, 65_536];

/// Frames a stream of 100 MB in pieces of each size, and prints the time in nanoseconds for each
/// octet. A PDU's body is copied out and freed.
pub(crate) fn run<R: Print + Clock + AllocGlobal>(rt: &R) -> io::Result<()> {
    match stream(rt.alloc()) {
        Ok(stream) => print_sizes(rt, rt.alloc(), &stream),
        Err(_) => Err(no_memory()),
    }
}

fn stream(alloc: Global) -> Result<Vec<u8>, AllocError> {
    let mut stream = Vec::new(alloc);
    for _ in 0..PDUS {
        stream.extend_from_slice(PDU)?;
    }
    Ok(stream)
}

fn print_sizes<R: Print + Clock>(rt: &R, alloc: Global, stream: &[u8]) -> io::Result<()> {
    for &size in &SIZES {
        let nanos = nanos_in_pieces(rt, alloc, stream, size)?;
        println!(rt;
            "pieces of {size}: {} ns an octet",
            Hundredths::quotient(nanos, PDUS * 100)
        )?;
    }
    Ok(())
}

// The nanoseconds that the stream takes in pieces of this size.
fn nanos_in_pieces<R: Clock>(rt: &R, alloc: Global, stream: &[u8], size: usize) -> io::Result<u64> {
    let mut framer = Framer::new(alloc, 65_536);
    nanos_of_framer(rt, &mut framer, stream, size)
}

fn nanos_of_framer<R: Clock>(
    rt: &R,
    framer: &mut Framer,
    stream: &[u8],
    size: usize,
) -> io::Result<u64> {
    let start = Instant::now(rt)?;
    match count_in_pieces(framer, stream, size) {
        Ok(PDUS) => nanos_since(rt, start),
        Ok(found) => Err(stopped(format_args!("{found} PDUs"))),
        Err(fault) => Err(stopped(fault)),
    }
}

// How many PDUs the framer finds in a stream that it is fed in pieces of this size.
fn count_in_pieces(framer: &mut Framer, stream: &[u8], size: usize) -> Result<u64, FrameFault> {
    let mut found: u64 = 0;
    for piece in stream.chunks(size.max(1)) {
        found = found.saturating_add(count_with(framer, piece)?);
    }
    Ok(found)
}

// How many PDUs are whole with this piece.
fn count_with(framer: &mut Framer, piece: &[u8]) -> Result<u64, FrameFault> {
    framer.feed(piece)?;
    count_pdus(framer)
}

// How many PDUs are whole.
fn count_pdus(framer: &mut Framer) -> Result<u64, FrameFault> {
    let mut found: u64 = 0;
    // No more PDUs than headers fit.
    for _ in 0..=framer.rest().len() / 16 {
        if framer.next_pdu()?.is_none() {
            break;
        }
        found = found.saturating_add(1);
    }
    Ok(found)
}
