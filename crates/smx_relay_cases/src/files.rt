//! Whole texts and files, read and written.

use smx_config::{FileFault, read_text, reject};
use smx_whole_text::{read_octets, write_text};
use std::alloc::{AllocError, Global};
use std::io;
use std::io::{ErrorKind, Write};

// The number that a line begins with, and what stands behind it.
fn numbered(line: &str) -> (usize, &str) {
    let (number, rest) = line.split_once(" ").unwrap_or((line, ""));
    (number.parse().unwrap_or(0), rest)
}

// A text that is read where so many octets are the most, and written.
fn tell_text(alloc: Global, line: &str, out: &mut Vec<u8>) -> io::Result<()> {
    let (most, text) = numbered(line);
    let mut reader = text.as_bytes();
    match read_octets(alloc, &mut reader, most) {
        Ok(octets) => {
            if write_text(out, &octets).is_err() {
                return Err(io::Error::from(ErrorKind::OutOfMemory));
            }
            writeln!(out)
        }
        Err(fault) => writeln!(out, "{fault:?}"),
    }
}

/// What is read of texts and written again. Each line is a text behind the most octets that it may
/// have.
pub fn tell_texts(alloc: Global, text: &str, out: &mut Vec<u8>) -> io::Result<()> {
    for line in text.lines() {
        write!(out, "{line}: ")?;
        tell_text(alloc, line, out)?;
    }
    Ok(())
}

// The octets, so often.
fn file_of(alloc: Global, count: usize, octets: &[u8]) -> Result<Vec<u8>, AllocError> {
    let mut file = Vec::new(alloc);
    for _ in 0..count {
        file.extend_from_slice(octets)?;
    }
    Ok(file)
}

// The octets of the text of a file that has these so often.
fn length_of(alloc: Global, line: &str) -> Result<usize, FileFault> {
    if line == "no memory" {
        return Err(FileFault::NoMemory);
    }
    let (count, digits) = numbered(line);
    let octets = hex::decode(alloc, digits).map_err(|_| FileFault::NoMemory)?;
    let file = file_of(alloc, count, &octets).map_err(|_| FileFault::NoMemory)?;
    let mut reader = file.as_slice();
    Ok(read_text(alloc, &mut reader)?.len())
}

// What is read of a file, and the line that is written of one that has no text.
fn tell_file(alloc: Global, line: &str, out: &mut Vec<u8>) -> io::Result<()> {
    match length_of(alloc, line) {
        Ok(length) => writeln!(out, "{line}: octets {length}"),
        Err(fault) => {
            write!(out, "{line}: {fault:?}, ")?;
            reject(fault, out).map_err(|_| io::Error::from(ErrorKind::OutOfMemory))
        }
    }
}

/// What is read of files. A line is `no memory`, or the octets of a file behind the number of times
/// that it has them.
pub fn tell_files(alloc: Global, text: &str, out: &mut Vec<u8>) -> io::Result<()> {
    for line in text.lines() {
        tell_file(alloc, line, out)?;
    }
    Ok(())
}
