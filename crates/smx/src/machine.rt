//! What the machine says of its memory and of a file.
use smx_config::read_text;
use std::os::unix::fs::MetadataExt;
use std::rt::Files;
use std::{fmt, fs};

/// The octets of memory that a machine is taken to have where it says nothing of it.
const UNKNOWN: u64 = 4_294_967_296;

/// The bits of a file's mode by which its group and others may read it.
const OTHERS: u32 = 0o044;

/// Octets in a person's measure.
#[derive(Clone, Copy)]
pub(crate) struct Amount(pub u64);

impl fmt::Display for Amount {
    fn fmt<W: fmt::Write>(&self, f: &mut fmt::Formatter<W>) -> fmt::Result {
        let megabytes = self.0 / 1_000_000;
        if megabytes < 1_000 {
            write!(f, "{megabytes} MB")
        } else {
            write!(f, "{} GB", megabytes / 1_000)
        }
    }
}

fn known_memory<R: Files + AllocGlobal>(rt: &R) -> Option<u64> {
    let mut file = fs::open(rt, "/proc/meminfo").ok()?;
    let text = read_text(rt.alloc(), &mut file).ok()?;
    for line in text.lines() {
        if let Some(amount) = line.strip_prefix("MemTotal:") {
            let kilobytes = amount.trim().strip_suffix(" kB")?;
            return kilobytes.trim().parse::<u64>().ok()?.checked_mul(1_024);
        }
    }
    None
}

/// The octets of memory that the machine has.
pub(crate) fn memory<R: Files + AllocGlobal>(rt: &R) -> u64 {
    known_memory(rt).unwrap_or(UNKNOWN)
}

/// Whether others than its owner can read a file.
pub(crate) fn is_open<R: Files>(rt: &R, path: &str) -> bool {
    match fs::metadata(rt, path) {
        Ok(metadata) => metadata.mode() & OTHERS != 0,
        Err(_) => false,
    }
}
