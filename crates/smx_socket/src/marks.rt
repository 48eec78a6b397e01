//! What is known of a connection.
ghost use Rattle.std.specs.Prelude.{◌≡◌, true, false};
ghost use Rattle.smx_socket.specs.Outcomes.{marks_read, marks_written};

use crate::transport::Outcome;

/// What is known of a connection, by what the system's events and calls said.
#[derive(Clone, Copy, Debug)]
pub struct Marks {
    /// A read may find something.
    pub readable: bool,
    /// Every read from now on answers at once.
    pub read_closed: bool,
    /// The system takes octets.
    pub writable: bool,
    /// The peer sends nothing more.
    pub ended: bool,
    /// The connection failed.
    pub failed: bool,
    /// Nothing more is accepted to be written, and the writing side is shut down once nothing waits.
    pub closing: bool,
    /// The writing side is shut down.
    pub write_closed: bool,
}

impl Marks {
    /// Those of a new connection: a read may find something, and the system takes octets.
    pub fn new() -> Marks
        ensures open { (result.readable ≡ true) × (result.writable ≡ true) }
        ensures ended { (result.ended ≡ false) × (result.read_closed ≡ false) }
        ensures failed { result.failed ≡ false }
        ensures closing { (result.closing ≡ false) × (result.write_closed ≡ false) }
    {
        Marks {
            readable: true,
            read_closed: false,
            writable: true,
            ended: false,
            failed: false,
            closing: false,
            write_closed: false,
        }
    }

    /// After a read of so many octets was answered so.
    pub fn after_read(self, outcome: Outcome, room: usize) -> Marks
        ensures { result ≡ marks_read outcome room self }
    {
        let mut marks = self;
        match outcome {
            Outcome::Moved(0) => marks.ended = true,
            // A short read has emptied the socket; what comes next makes an event.
            Outcome::Moved(count) => {
                if count < room && !marks.read_closed {
                    marks.readable = false;
                }
            }
            Outcome::NotNow => marks.readable = false,
            Outcome::Retry => {}
            Outcome::Failed => marks.failed = true,
        }
        marks
    }

    /// After a write of one octet at least was answered so.
    pub fn after_write(self, outcome: Outcome) -> Marks
        ensures { result ≡ marks_written outcome self }
    {
        let mut marks = self;
        match outcome {
            Outcome::Moved(0) | Outcome::Failed => marks.failed = true,
            Outcome::Moved(_) | Outcome::Retry => {}
            Outcome::NotNow => marks.writable = false,
        }
        marks
    }
}
