//! A reader that remembers why it failed.
use std::io::Read;
use std::{fmt, io};

/// A reader, and the last error that a read of it gave.
#[derive(Drop)]
pub(crate) struct Watched<R: Drop> {
    reader: R,
    error: Option<io::Error>,
}

impl<R: Read + Drop> Watched<R> {
    pub(crate) fn new(reader: R) -> Watched<R> {
        Watched {
            reader,
            error: None,
        }
    }

    /// Why it failed, where it did.
    pub(crate) fn error(&self) -> Option<io::Error> {
        self.error
    }
}

impl<R: Read + Drop> Read for Watched<R> {
    fn read(&mut self, buf: &mut [u8]) -> io::Result<usize> {
        match self.reader.read(buf) {
            Ok(count) => Ok(count),
            Err(error) => {
                self.error = Some(error);
                Err(error)
            }
        }
    }
}

/// A fault in words, and behind it the system's error that it came from, where there is one.
#[derive(Clone, Copy)]
pub(crate) struct Because<T> {
    pub fault: T,
    pub error: Option<io::Error>,
}

impl<T: fmt::Display> fmt::Display for Because<T> {
    fn fmt<W: fmt::Write>(&self, f: &mut fmt::Formatter<W>) -> fmt::Result {
        let fault = &self.fault;
        match self.error {
            Some(error) => write!(f, "{fault}: {error}"),
            None => write!(f, "{fault}"),
        }
    }
}
