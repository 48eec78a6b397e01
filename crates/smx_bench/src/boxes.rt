//! Boxes: senders in threads of their own, and one receiver.

use crate::figures::{Hundredths, Work, nanos_of_works, no_memory, stopped};
use smx_box::{Boxed, Got, PutFault, Receiver, Sender};
use std::alloc::{AllocError, Global};
use std::rt::Clock;
use std::sync::Wait;
use std::thread::Threads;
use std::{io, thread};

// How many items all senders put together, but for what the division leaves.
const ITEMS: u64 = 256_000;

/// Prints millions of items a second, for 16 and 256 places and 1, 2, 16 and 256 senders. Each
/// sender tries again after it found the box full, and the receiver after it found it empty.
pub(crate) fn run<R: Threads + Wait + Sync + Print + Clock + AllocGlobal>(
    rt: &R,
) -> io::Result<()> {
    for &places in &[16, 256] {
        for &senders in &[1, 2, 16, 256] {
            measure(rt, senders, places)?;
        }
    }
    Ok(())
}

fn measure<R: Threads + Wait + Sync + Print + Clock + AllocGlobal>(
    rt: &R,
    senders: usize,
    places: usize,
) -> io::Result<()> {
    let (took, got) = nanos_of_items(rt, rt.alloc(), senders, places)?;
    println!(rt;
        "{places} places, {senders} senders: {} million items a second",
        Hundredths::quotient(got.saturating_mul(1000), took)
    )
}

// The nanoseconds that all items take, and how many came.
fn nanos_of_items<R: Threads + Wait + Sync + Clock>(
    rt: &R,
    alloc: Global,
    senders: usize,
    places: usize,
) -> io::Result<(u64, u64)> {
    match Boxed::new(rt, alloc, senders, places) {
        Ok((receiver, all)) => {
            match ends_of(alloc, receiver, all, ITEMS / (senders as u64).max(1)) {
                Ok(ends) => nanos_of_works(rt, ends),
                Err(_) => Err(no_memory()),
            }
        }
        Err(fault) => Err(stopped(fault)),
    }
}

fn ends_of(
    alloc: Global,
    receiver: Receiver<u64>,
    senders: Vec<Sender<u64>>,
    items: u64,
) -> Result<Vec<End>, AllocError> {
    let mut ends = Vec::new(alloc);
    ends.push(End::Receiver(receiver))?;
    for sender in senders {
        ends.push(End::Sender(sender, items))?;
    }
    Ok(ends)
}

/// An end of the box: the receiver, or a sender and how many items it puts.
#[derive(Drop)]
enum End {
    Receiver(Receiver<u64>),
    Sender(Sender<u64>, u64),
}

impl Work for End {
    // Counts the items that came.
    fn run<R: Wait>(self, rt: &R) -> u64 {
        match self {
            End::Receiver(receiver) => get_all(rt, receiver),
            End::Sender(sender, items) => {
                put_all(rt, sender, items);
                0
            }
        }
    }
}

// Gets until every sender's mark came, and answers how many items came.
fn get_all<R: Wait>(rt: &R, receiver: Receiver<u64>) -> u64 {
    let mut receiver = receiver;
    let mut count = 0u64;
    for _ in rt.forever() {
        match receiver.get(rt) {
            Ok(Got::Item { .. }) => count = count.saturating_add(1),
            Ok(Got::Shut { .. }) if receiver.ended() => break,
            Ok(Got::Shut { .. }) => {}
            Ok(Got::Empty) | Err(_) => thread::yield_now(),
        }
    }
    count
}

// Puts so many items, and shuts.
fn put_all<R: Wait>(rt: &R, sender: Sender<u64>, items: u64) {
    let mut sender = sender;
    for item in 0..items {
        put(rt, &mut sender, item);
    }
    shut(rt, sender);
}

// Puts an item; again where the box was full.
fn put<R: Wait>(rt: &R, sender: &mut Sender<u64>, item: u64) {
    for _ in rt.forever() {
        let Err((_, PutFault::Full)) = sender.put(rt, item) else {
            return;
        };
        thread::yield_now();
    }
}

// Shuts; again where the box was full.
fn shut<R: Wait>(rt: &R, sender: Sender<u64>) {
    let mut sender = sender;
    for _ in rt.forever() {
        match sender.shut(rt) {
            Err((back, PutFault::Full)) => sender = back,
            Ok(_) | Err(_) => return,
        }
        thread::yield_now();
    }
}
