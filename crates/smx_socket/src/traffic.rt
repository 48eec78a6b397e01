//! How many octets went through a connection.

/// How many octets went each way through a connection, modulo 2^64.
#[derive(Clone, Copy)]
pub(crate) struct Traffic {
    pub(crate) came: u64,
    pub(crate) went: u64,
}

impl Traffic {
    /// None yet.
    pub(crate) fn new() -> Traffic {
        Traffic { came: 0, went: 0 }
    }

    /// So many came.
    pub(crate) fn add_came(&mut self, octets: usize) {
        self.came = self.came.wrapping_add(octets as u64);
    }

    /// So many were accepted.
    pub(crate) fn add_went(&mut self, octets: usize) {
        self.went = self.went.wrapping_add(octets as u64);
    }

    /// Both.
    pub(crate) fn total(self) -> u64 {
        self.came.wrapping_add(self.went)
    }
}
