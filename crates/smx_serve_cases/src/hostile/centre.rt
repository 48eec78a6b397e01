//! Message centres of good and of bad manners.
use super::Trial;
use super::caller::{Caller, header};
use crate::stage::OWN_BOUND;
use smx_demo::answer_all;
use smx_pdu::Header;
use smx_pdu::command::{BIND_TRANSCEIVER, DATA_SM, DELIVER_SM, QUERY_SM, RESPONSE, SUBMIT_SM};
use std::alloc::Global;
use std::net::{TcpListener, TcpStream};
use std::process::Abort;
use std::rt::Clock;
use std::sync::atomic::{AtomicBool, Ordering};
use std::thread::sleep;
use std::time::Duration;

// The lengths that are too short, one a connection.
const SHORT: [u32; 3] = [0, 7, 15];

// What is added to a request's number for one that no request has.
const NEVER: u32 = 500_000;

impl Trial {
    // Serves one connection after another until all is over.
    pub(crate) fn serve<R: Clock + Abort>(
        self,
        rt: &R,
        alloc: Global,
        listener: &TcpListener,
        over: &AtomicBool,
    ) {
        let mut count = 0;
        let mut held = None;
        for _ in 0..u64::MAX {
            if over.load(Ordering::SeqCst) {
                return;
            }
            match listener.accept() {
                Ok((stream, _)) => {
                    held = self.meet(rt, alloc, stream, count, over).or(held);
                    count = count.saturating_add(1);
                }
                Err(_) => sleep(rt, Duration::from_millis(1)),
            }
        }
    }

    // Serves the connection with this index, or hands it back to be held.
    fn meet(
        self,
        rt: &impl Abort,
        alloc: Global,
        stream: TcpStream,
        index: usize,
        over: &AtomicBool,
    ) -> Option<Caller> {
        match self {
            Trial::Deaf if index == 0 => {
                let mut caller = Caller::new(rt, stream);
                caller.say(OWN_BOUND);
                return Some(caller);
            }
            Trial::Lying => lie(rt, stream),
            Trial::Short if index < SHORT.len() => cut_short(rt, stream, SHORT[index]),
            _ => answer_all(alloc, stream, over),
        }
        None
    }
}

// Answers all as it should not until the connection ends.
fn lie(rt: &impl Abort, stream: TcpStream) {
    let mut caller = Caller::new(rt, stream);
    for _ in 0..u64::MAX {
        let Some(
            Header {
                command,
                number,
                ..
            },
        ) = caller.hear()
        else {
            return;
        };
        if !caller.lies(command, number) {
            return;
        }
    }
}

// Answers the first submit_sm with this length alone.
fn cut_short(rt: &impl Abort, stream: TcpStream, length: u32) {
    let mut caller = Caller::new(rt, stream);
    for _ in 0..u64::MAX {
        let Some(
            Header {
                command,
                number,
                ..
            },
        ) = caller.hear()
        else {
            return;
        };
        if command == SUBMIT_SM {
            caller.say(&header(length, RESPONSE | SUBMIT_SM, 0, number));
        } else {
            caller.answers(command, number);
        }
    }
}

impl Caller {
    // Answers a request as it should.
    fn answers(&mut self, command: u32, number: u32) -> bool {
        if command == BIND_TRANSCEIVER {
            return self.say(OWN_BOUND);
        }
        self.say_header(RESPONSE | command, 0, number)
    }

    // Answers a request with what nobody asked, with other commands, as it should, and then again
    // twice, at last with another status.
    fn lies(&mut self, command: u32, number: u32) -> bool {
        if command != SUBMIT_SM {
            return self.answers(command, number);
        }
        self.say_header(RESPONSE | command, 0, number.wrapping_add(NEVER))
            && self.say_header(RESPONSE | DATA_SM, 0, number)
            && self.say_header(RESPONSE | QUERY_SM, 0, number)
            && self.say_header(RESPONSE | DELIVER_SM, 0, number)
            && self.say_header(RESPONSE | command, 0, number)
            && self.say_header(RESPONSE | command, 0, number)
            && self.say_header(RESPONSE | command, 8, number)
    }
}
