//! The links: what comes on them is cut into PDUs, which a session decides.
ghost use Rattle.std.specs.Prelude.{◌≡◌, true, false, Some, None, IfOk, IfErr, IfSome, IfNone};
ghost use Rattle.std.specs.Prelude.{OnOk, Ok};
ghost use Rattle.smx_lines.specs.Links.{Receives, has_failed, has_left, may_receive, new_link};
ghost use Rattle.smx_lines.specs.Links.{new_stream, bound_centre};

use crate::inbox::Inbox;
use crate::receive::receive;
use smx_frame::Framer;
use smx_mailbox::{Message, Unanswered};
use smx_pdu::{MAX_PDU, Pdu};
use smx_session::{
    Account, Act, ClientSession, ClientState, Kind, UpAct, UpstreamBind, UpstreamSession,
    UpstreamState,
};
use std::alloc::{AllocError, Global};
use std::marker::Model;

/// A client's link. Contracts see it as its session, without moments, the stream of its octets and
/// its mailbox.
#[derive(Drop)]
pub struct ClientLink {
    session: ClientSession,
    framer: Framer,
    mailbox: Inbox,
}

impl Model for ClientLink {
    ghost use Rattle.smx_lines.specs.Links.{ClientLink};

    ghost Value = { ClientLink };

    ghost view = { λ l. record {
      session = record { state = l.session.state; account = l.session.account };
      stream = l.framer.stream;
      mailbox = l.mailbox;
    } };
}

impl ClientLink {
    ghost use Rattle.smx_lines.specs.Links.{at_end};
    ghost use Rattle.smx_pdu.specs.Answers.{nack_of_undecoded};
    ghost use Rattle.smx_lines.specs.ClientTurn.{decides};
    ghost use Rattle.smx_routes.specs.Window.{message_for};
    ghost use Rattle.smx_routes.specs.declared.mo_window.Waiting.{Waiting};
    ghost use Rattle.smx_mailbox.specs.Mailbox.{with_message, is_full, pdus_sent, after_sent, after_settling};
    ghost use Rattle.smx_mailbox.specs.Mailbox.{unanswered_messages, empty_mailbox};

    /// The link of a client that is bound so, or is still to bind, and whose mailbox has so many
    /// places.
    pub(crate) fn new(alloc: Global, kind: Option<Kind>, places: u32) -> ClientLink
        ensures { result ≡ new_link places kind }
    {
        let session = match kind {
            Some(kind) => ClientSession::bound(alloc, kind, 0, 0),
            None => ClientSession::new(alloc, 0, 0),
        };
        ClientLink {
            session,
            framer: Framer::new(alloc, MAX_PDU as u32),
            mailbox: Inbox::new(alloc, places),
        }
    }

    /// Whether the client is bound to receive.
    pub(crate) fn may_receive(&self) -> bool
        ensures { result ≡ may_receive self.now.session.state }
    {
        match self.session.state() {
            ClientState::BoundRx | ClientState::BoundTrx => true,
            _ => false,
        }
    }

    /// Whether a bad length came.
    pub(crate) fn has_failed(&self) -> bool
        ensures { result ≡ has_failed self.now.stream }
    {
        self.framer.has_failed()
    }

    /// The PDUs that these octets complete.
    pub(crate) fn receive(&mut self, alloc: Global, octets: &[u8]) -> Result<Vec<Pdu>, AllocError>
        ensures stream { IfOk result (λ pdus.
            Receives self.old.stream octets.now pdus.items self.new.stream) }
        ensures others { (self.new.session ≡ self.old.session)
            × (self.new.mailbox ≡ self.old.mailbox) }
    {
        receive(alloc, &mut self.framer, octets)
    }

    /// Decides a PDU.
    #[tactic(auto, unfolding(crate::specs::ClientTurn::decides))]
    pub(crate) fn decide(&mut self, pdu: &Pdu, accounts: &[Account]) -> Result<Act, AllocError>
        ensures act { IfOk result (λ act. act ≡ (decides accounts.now self.old.session pdu.now).0) }
        ensures link { IfOk result (λ _. self.new
            ≡ record self.old { session = (decides accounts.now self.old.session pdu.now).1 }) }
    {
        self.session.on_pdu(pdu, accounts)
    }

    /// Ends the session at a bad length, and gives what the client gets last.
    pub(crate) fn end(&mut self) -> Pdu
        ensures answer { result ≡ nack_of_undecoded }
        ensures link { self.new ≡ at_end self.old }
    {
        match self.session.on_fault() {
            Act::Hangup(answer) => answer,
            _ => unreachable!(),
        }
    }

    /// Puts a message into the client's mailbox, or hands it back where that is full.
    pub(crate) fn put(&mut self, message: Message) -> Result<Result<(), Message>, AllocError>
        ensures ok { IfOk result (λ put. OnOk put ((is_full self.old.mailbox ≡ false)
            × (self.new ≡ record self.old { mailbox = with_message message self.old.mailbox }))) }
        ensures full { IfOk result (λ put. IfErr put (λ back.
            (is_full self.old.mailbox ≡ true) × (back ≡ message) × (self.new ≡ self.old))) }
    {
        self.mailbox.put(message)
    }

    /// The messages that the client is sent now.
    pub(crate) fn send(&mut self) -> Result<Vec<Pdu>, AllocError>
        ensures ok { IfOk result (λ pdus.
            pdus.items ≡ pdus_sent self.old.mailbox.window self.old.mailbox.waiting) }
        ensures after { OnOk result (self.new ≡ record self.old {
          mailbox = after_sent self.old.mailbox.window self.old.mailbox.waiting;
        }) }
    {
        self.mailbox.send()
    }

    /// The lane and the centre's number of the message that a response answers. It waits no longer.
    pub(crate) fn settle(&mut self, number: u32, command: u32) -> Option<(usize, u32)>
        ensures some { IfSome result (λ r. (w : Waiting)
            × (message_for number command self.old.mailbox.window.waiting ≡ Some w)
            × (r.0 ≡ w.lane)
            × (r.1 ≡ w.number)
            × (self.new ≡ record self.old { mailbox = after_settling number self.old.mailbox })) }
        ensures none { IfNone result (
            (message_for number command self.old.mailbox.window.waiting ≡ None)
            × (self.new ≡ self.old)) }
    {
        self.mailbox.settle(number, command)
    }

    /// The messages that the client leaves without an answer.
    pub(crate) fn empty(&mut self) -> Result<Vec<Unanswered>, AllocError>
        ensures ok { IfOk result (λ messages. messages.items
            ≡ unanswered_messages self.old.mailbox) }
        ensures after { OnOk result
            (self.new ≡ record self.old { mailbox = empty_mailbox self.old.mailbox }) }
    {
        self.mailbox.empty()
    }
}

/// A lane's link to the centre. Contracts see it as its session and the stream of its octets.
#[derive(Drop)]
pub struct CentreLink {
    session: UpstreamSession,
    framer: Framer,
}

impl Model for CentreLink {
    ghost use Rattle.smx_lines.specs.Links.{CentreLink};

    ghost Value = { CentreLink };

    ghost view = { λ l. record { session = l.session; stream = l.framer.stream } };
}

impl CentreLink {
    ghost use Rattle.smx_lines.specs.CentreTurn.{act_of, session_after};

    /// The link of a lane whose bind the centre has answered.
    pub(crate) fn bound(alloc: Global) -> Result<CentreLink, AllocError>
        ensures { IfOk result (λ link. link ≡ bound_centre) }
    {
        let system_id = Vec::from_slice(alloc, b"smx")?;
        let bind = UpstreamBind::transceiver(alloc, system_id, Vec::new(alloc));
        Ok(CentreLink {
            session: UpstreamSession::bound(alloc, bind, 0, 0),
            framer: Framer::new(alloc, MAX_PDU as u32),
        })
    }

    /// Whether a bad length came.
    pub(crate) fn has_failed(&self) -> bool
        ensures { result ≡ has_failed self.now.stream }
    {
        self.framer.has_failed()
    }

    /// Whether the centre has unbound.
    pub(crate) fn has_left(&self) -> bool
        ensures { result ≡ has_left self.now }
    {
        self.session.state() == UpstreamState::Ended
    }

    /// The PDUs that these octets complete.
    pub(crate) fn receive(&mut self, alloc: Global, octets: &[u8]) -> Result<Vec<Pdu>, AllocError>
        ensures stream { IfOk result (λ pdus.
            Receives self.old.stream octets.now pdus.items self.new.stream) }
        ensures session { self.new.session ≡ self.old.session }
    {
        receive(alloc, &mut self.framer, octets)
    }

    /// Decides a PDU. The moments of a script are the lanes' alone, and the session is told of none.
    #[tactic(auto, unfolding(crate::specs::CentreTurn::act_of, crate::specs::CentreTurn::session_after))]
    pub(crate) fn decide(&mut self, pdu: &Pdu) -> UpAct
        ensures act { result ≡ act_of self.old.session pdu.now }
        ensures link { self.new
            ≡ record self.old { session = session_after self.old.session pdu.now } }
    {
        self.session.on_pdu(pdu, 0)
    }
}
