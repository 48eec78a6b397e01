//! What a client knows between its turns.
ghost use Rattle.std.specs.Prelude.{◌≡◌, ◌≤◌, IfOk};
ghost use Rattle.smx_pdu.specs.Fields.{IsText};

use smx_frame::{FrameFault, Framer};
use smx_link::{Link, Polled};
use smx_pdu::command::SUBMIT_SM;
use smx_pdu::status::ESME_ROK;
use smx_pdu::{Body, Pdu, encode, is_response_to};
use smx_session::{Account, UpAct, UpstreamBind, UpstreamSession};
use std::alloc::{AllocError, Global};
use std::cmp::Ord;

/// How many messages a client sends, with the sequence numbers from 1 on.
pub const MESSAGES: u32 = 10;

/// The most octets of one read.
const MOST: usize = 4_096;

/// The body of each submit_sm (SMPP 3.4, section 4.4.1): all fields are empty or 0 but for the
/// destination, `1`.
const BODY: &[u8] = b"\0\0\0\0\0\01\0\0\0\0\0\0\0\0\0\0";

/// A client that binds and sends its messages.
#[derive(Drop)]
pub(crate) struct Esme {
    alloc: Global,
    session: UpstreamSession,
    framer: Framer,
    // What waits to be written, and how much of it was.
    waiting: Vec<u8>,
    sent: usize,
    // The message that isn't answered; 0 before the bind is.
    number: u32,
    answered: u32,
    ghost counts: { answered ≤ number },
    ghost most: { number ≤ 10 },
}

impl Esme {
    /// A client whose bind waits to be written.
    pub(crate) fn new(alloc: Global, account: &Account) -> Result<Esme, AllocError>
        requires system_id { IsText 16 account.now.system_id }
        requires password { IsText 9 account.now.password }
    {
        let system_id = Vec::from_slice(alloc, &account.system_id)?;
        let password = Vec::from_slice(alloc, &account.password)?;
        let bind = UpstreamBind::transceiver(alloc, system_id, password);
        let session = UpstreamSession::new(alloc, bind, u64::MAX, 0);
        let bind = session.start()?;
        let mut waiting = Vec::new(alloc);
        encode(&bind, &mut waiting)?;
        Ok(Esme {
            alloc,
            session,
            framer: Framer::new(alloc, 65_536),
            waiting,
            sent: 0,
            number: 0,
            answered: 0,
        })
    }

    pub(crate) fn answered(&self) -> u32
        ensures { result ≤ 10 }
    {
        self.answered
    }

    /// One write and one read; whether there is more to do.
    pub(crate) fn turn<L: Link>(&mut self, link: &mut L) -> Result<bool, AllocError> {
        if !self.offer(link) {
            return Ok(false);
        }
        let mut buffer = [0u8; MOST];
        match link.poll_read(&mut buffer) {
            Ok(Polled::Octets(count)) => match self.framer.feed(&buffer[..count]) {
                Ok(()) => self.hear_all(),
                Err(FrameFault::NoMemory) => Err(AllocError),
                Err(_) => Ok(false),
            },
            Ok(Polled::Nothing) => Ok(true),
            Ok(Polled::End) | Err(_) => Ok(false),
        }
    }

    // Offers what waits; whether the link stands.
    fn offer<L: Link>(&mut self, link: &mut L) -> bool {
        let from = self.sent.min(self.waiting.len());
        if from == self.waiting.len() {
            return true;
        }
        let Ok(count) = link.write(&self.waiting[from..]) else {
            return false;
        };
        self.sent = self.sent.saturating_add(count);
        true
    }

    // Hears each whole PDU; whether there is more to do.
    fn hear_all(&mut self) -> Result<bool, AllocError> {
        for _ in 0..u64::MAX {
            match self.framer.next_pdu() {
                Ok(Some(pdu)) => {
                    if !self.hear(&pdu)? {
                        return Ok(false);
                    }
                }
                Ok(None) => return Ok(true),
                Err(FrameFault::NoMemory) => return Err(AllocError),
                Err(_) => return Ok(false),
            }
        }
        Ok(true)
    }

    fn hear(&mut self, pdu: &Pdu) -> Result<bool, AllocError> {
        match self.session.on_pdu(pdu, 0) {
            UpAct::Up => self.next(),
            UpAct::ToLane if pdu.number == self.number && is_response_to(SUBMIT_SM, pdu.command) =>
                {
                    if pdu.status == ESME_ROK && self.answered < self.number {
                        self.answered += 1;
                    }
                    self.next()
                }
            UpAct::Answer(answer) => {
                self.say(&answer)?;
                Ok(true)
            }
            UpAct::Mo | UpAct::Ignore | UpAct::ToLane => Ok(true),
            UpAct::Failed(_) | UpAct::Leave(_) | UpAct::Closed => Ok(false),
        }
    }

    // Says the next message; whether there is one.
    fn next(&mut self) -> Result<bool, AllocError> {
        if self.number >= MESSAGES {
            return Ok(false);
        }
        let body = Body::short(Vec::from_slice(self.alloc, BODY)?);
        self.number += 1;
        self.say(&Pdu {
            command: SUBMIT_SM,
            status: ESME_ROK,
            number: self.number,
            body,
        })?;
        Ok(true)
    }

    fn say(&mut self, pdu: &Pdu) -> Result<(), AllocError> {
        if self.sent >= self.waiting.len() {
            self.waiting.clear();
            self.sent = 0;
        }
        encode(pdu, &mut self.waiting)
    }
}
