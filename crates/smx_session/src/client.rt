//! A client's session.
ghost use Rattle.std.specs.Prelude.{◌≡◌, List, Some, IfOk, OnOk, OnErr};
ghost use Rattle.smx_session.specs.Login.{Login};
ghost use Rattle.smx_pdu.specs.Answers.{nack_of_undecoded};
ghost use Rattle.smx_session.specs.ClientTable.{bound_state, client_decides, account_after, client_cell, client_row, Binds, is_enquired};
ghost use Rattle.smx_session.specs.Binds.{check_bind};
ghost use Rattle.smx_session.specs.ClientAsks.{bind_asks, request_asks, client_asks, client_bars};
ghost use Rattle.smx_session.specs.ClientMoments.{client_at, after_octets, client_enquiry, after_client_moment, client_moment, client_farewell, client_state_after_stop};

use crate::account::Account;
use crate::act::Act;
use crate::ask::Ask;
use crate::bind_check::{Checked, bind_answer, check_bind};
use crate::client_row::{ClientRow, client_row};
use crate::client_state::ClientState::{
    self, BoundRx, BoundTrx, BoundTx, Ended, Opened, Unbinding,
};
use crate::enquiry::Enquiry;
use crate::kind::Kind;
use crate::rules::rules_of;
use smx_pdu::Pdu;
use smx_pdu::command::{ENQUIRE_LINK, UNBIND};
use smx_pdu::status::{ESME_RALYBND, ESME_RBINDFAIL, ESME_RINVBNDSTS, ESME_RMSGQFUL, ESME_ROK};
use std::alloc::{AllocError, Global};
use std::marker::Model;

// The number of the proxy's own enquire_link to a client.
const ENQUIRY_NUMBER: u32 = 0x7FFF_FFFF;

// That of its own unbind.
const UNBIND_NUMBER: u32 = 0x7FFF_FFFF;

/// A client's session. Moments are in milliseconds from any origin; one below the last one handed
/// in counts as the last one. Contracts see it as its state, its account and its moments.
#[derive(Drop)]
pub struct ClientSession {
    alloc: Global,
    state: ClientState,
    // The index of the account that it is bound by.
    account: Option<usize>,
    // After so long without an octet it enquires. 0: never.
    silence: u64,
    // The last moment that was handed in.
    latest: u64,
    // That of the last octets, at first that of the start.
    heard: u64,
    // Since when an enquiry is unanswered.
    enquired: Option<u64>,
    // Whether it has ended for that.
    silent: bool,
}

impl Model for ClientSession {
    ghost use Rattle.smx_session.specs.ClientMoments.{Client};

    ghost Value = { Client };

    ghost view = { λ s. record {
      state = s.state;
      account = s.account;
      silence = s.silence;
      latest = s.latest;
      heard = s.heard;
      enquired = s.enquired;
      silent = s.silent;
    } };
}

// The state of a session that is bound so.
fn bound_state(kind: Kind) -> ClientState
    ensures { result ≡ bound_state kind }
{
    match kind {
        Kind::Tx => ClientState::BoundTx,
        Kind::Rx => ClientState::BoundRx,
        Kind::Trx => ClientState::BoundTrx,
    }
}

// Whether a silent client is sent enquire_link in this state.
fn is_enquired(state: ClientState) -> bool
    ensures { result ≡ is_enquired state }
{
    match state {
        BoundTx | BoundRx | BoundTrx => true,
        Opened | Unbinding | Ended => false,
    }
}

// What leave a bind with this body asks for.
fn bind_asks(accounts: &[Account], body: &[u8]) -> Ask
    ensures { result ≡ bind_asks (check_bind accounts.now body.now) }
{
    match check_bind(accounts, body) {
        Checked::Refused(_) => Ask::RefusedBind,
        Checked::Granted { account, .. } => Ask::Bind(account),
    }
}

// What leave a request asks for that the rules bar so.
#[inline(always)]
fn request_asks(ruled_out: Option<u32>) -> Option<Ask>
    ensures { result ≡ request_asks ruled_out }
{
    match ruled_out {
        Some(_) => None,
        None => Some(Ask::Request),
    }
}

impl ClientSession {
    // A session in this state.
    fn begin(alloc: Global, state: ClientState, silence: u64, now: u64) -> ClientSession
        ensures { result ≡ client_at state silence now }
    {
        ClientSession {
            alloc,
            state,
            account: None,
            silence,
            latest: now,
            heard: now,
            enquired: None,
            silent: false,
        }
    }

    /// A session with a client that has connected, with the silence after which it enquires, in
    /// milliseconds (0: never), and the moment now. It takes no memory.
    pub fn new(alloc: Global, silence: u64, now: u64) -> ClientSession
        ensures { result ≡ client_at ClientState.Opened silence now }
    {
        ClientSession::begin(alloc, Opened, silence, now)
    }

    /// A session with a client that is bound so, by no account and so without rules, with the same
    /// silence and moment. It takes no memory.
    pub fn bound(alloc: Global, kind: Kind, silence: u64, now: u64) -> ClientSession
        ensures { result ≡ client_at (bound_state kind) silence now }
    {
        ClientSession::begin(alloc, bound_state(kind), silence, now)
    }

    pub fn state(&self) -> ClientState
        ensures { result ≡ self.now.state }
    {
        self.state
    }

    /// The index of the account that the client is bound by: of the accounts that decided its bind.
    pub fn account(&self) -> Option<usize>
        ensures { result ≡ self.now.account }
    {
        self.account
    }

    /// Whether the session has ended since no octet came after an enquiry.
    pub fn is_silent(&self) -> bool
        ensures { result ≡ self.now.silent }
    {
        self.silent
    }

    /// What leave is asked for before the PDU is decided: a bind's, by its checks, or that of a
    /// request which goes to a lane. It takes no memory.
    #[inline(always)]
    pub fn asks(&self, pdu: &Pdu, accounts: &[Account]) -> Option<Ask>
        ensures { result ≡ client_asks accounts.now self.now.account self.now.state pdu.now }
    {
        match (client_row(pdu.command), self.state) {
            (ClientRow::Bind(_), Opened) => Some(bind_asks(accounts, pdu.body.as_slice())),
            (ClientRow::Forwarded, BoundTx | BoundTrx) => {
                request_asks(rules_of(accounts, self.account).ruled_out(pdu))
            }
            _ => None,
        }
    }

    /// The answer to a PDU that asked for this leave, where none was given. The session stays as it
    /// was. It takes no memory.
    pub fn bars(&self, pdu: &Pdu, ask: Ask) -> Act
        requires asks { (accounts : List Login)
            × (client_asks accounts self.now.account self.now.state pdu.now ≡ Some ask) }
        ensures { result ≡ client_bars ask pdu.now }
    {
        match ask {
            Ask::Bind(_) => Act::Answer(pdu.header_response(self.alloc, ESME_RBINDFAIL)),
            Ask::RefusedBind => Act::Ignore,
            Ask::Request => Act::Answer(pdu.header_response(self.alloc, ESME_RMSGQFUL)),
        }
    }

    /// Decides a PDU of the client. Only the answer to a bind that succeeds takes memory; where
    /// that is refused, the state stays.
    pub fn on_pdu(&mut self, pdu: &Pdu, accounts: &[Account]) -> Result<Act, AllocError>
        ensures act { IfOk result (λ act. act
            ≡ (client_decides accounts.now self.old.account self.old.state pdu.now).0) }
        ensures state { OnOk result (self.new ≡ record self.old {
          state = (client_decides accounts.now self.old.account self.old.state pdu.now).1;
          account = account_after
              (client_decides accounts.now self.old.account self.old.state pdu.now).0
              self.old.account;
        }) }
        ensures err { OnErr result (self.new ≡ self.old) }
        ensures memory { OnErr result (Binds (client_cell (client_row pdu.now.command) self.old.state)
            accounts.now pdu.now.body) }
    {
        let alloc = self.alloc;
        let act = match (client_row(pdu.command), self.state) {
            (ClientRow::Bind(kind), Opened) => return self.on_bind(kind, pdu, accounts),
            (ClientRow::Bind(_), BoundTx | BoundRx | BoundTrx | Unbinding) => {
                Act::Answer(pdu.header_response(alloc, ESME_RALYBND))
            }
            (ClientRow::Forwarded, BoundTx | BoundTrx) => {
                match rules_of(accounts, self.account).ruled_out(pdu) {
                    Some(status) => Act::Answer(pdu.header_response(alloc, status)),
                    None => Act::Forward,
                }
            }
            (ClientRow::Forwarded, Unbinding) => {
                Act::Answer(pdu.header_response(alloc, ESME_RMSGQFUL))
            }
            (ClientRow::MessageAnswer, BoundRx | BoundTrx | Unbinding) => {
                Act::MoAnswer { number: pdu.number }
            }
            (ClientRow::EnquireLink, Opened | BoundTx | BoundRx | BoundTrx | Unbinding) => {
                Act::Answer(pdu.header_response(alloc, ESME_ROK))
            }
            (ClientRow::Unbind, BoundTx | BoundRx | BoundTrx | Unbinding) => {
                self.state = Ended;
                Act::Leave(pdu.header_response(alloc, ESME_ROK))
            }
            (ClientRow::UnbindAnswer, Unbinding) => {
                self.state = Ended;
                Act::Closed
            }
            (ClientRow::Unknown, _) => Act::Answer(Pdu::unknown(alloc, pdu.number)),
            (
                ClientRow::MessageAnswer
                | ClientRow::UnbindAnswer
                | ClientRow::OtherResponse
                | ClientRow::Unanswered,
                _,
            ) => Act::Ignore,
            // Each other request isn't allowed in its state.
            _ => Act::Answer(pdu.header_response(alloc, ESME_RINVBNDSTS)),
        };
        Ok(act)
    }

    // Decides a bind in the state Opened.
    fn on_bind(&mut self, kind: Kind, pdu: &Pdu, accounts: &[Account]) -> Result<Act, AllocError>
        requires opened { self.old.state ≡ ClientState.Opened }
        requires bind { client_row pdu.now.command ≡ ClientRow.Bind kind }
        ensures act { IfOk result (λ act. act
            ≡ (client_decides accounts.now self.old.account self.old.state pdu.now).0) }
        ensures state { OnOk result (self.new ≡ record self.old {
          state = (client_decides accounts.now self.old.account self.old.state pdu.now).1;
          account = account_after
              (client_decides accounts.now self.old.account self.old.state pdu.now).0
              self.old.account;
        }) }
        ensures err { OnErr result (self.new ≡ self.old) }
        ensures memory { OnErr result (Binds (client_cell (client_row pdu.now.command) self.old.state)
            accounts.now pdu.now.body) }
    {
        match check_bind(accounts, pdu.body.as_slice()) {
            Checked::Refused(status) => { Ok(Act::Refuse(pdu.header_response(self.alloc, status))) }
            Checked::Granted { account, version } => {
                let answer = pdu.response(ESME_ROK, bind_answer(self.alloc, version)?);
                self.state = bound_state(kind);
                self.account = Some(account);
                Ok(Act::Bind {
                    kind,
                    account,
                    answer,
                })
            }
        }
    }

    /// Ends the session at a length that no PDU has, with generic_nack. It takes no memory.
    pub fn on_fault(&mut self) -> Act
        ensures act { result ≡ Act.Hangup nack_of_undecoded }
        ensures state { self.new ≡ record self.old { state = ClientState.Ended } }
    {
        self.state = ClientState::Ended;
        Act::Hangup(Pdu::undecoded(self.alloc))
    }

    // Hands in a moment.
    fn hand_in(&mut self, now: u64) -> u64
        ensures value { result ≡ client_moment self.old now }
        ensures latest { self.new ≡ record self.old { latest = client_moment self.old now } }
    {
        self.latest = self.latest.max(now);
        self.latest
    }

    /// Octets of the client came at this moment: any of them count as life. It takes no memory.
    pub fn on_octets(&mut self, now: u64)
        ensures { self.new ≡ after_octets self.old now }
    {
        self.heard = self.hand_in(now);
        self.enquired = None;
    }

    /// The enquire_link that is due at this moment (SMPP 3.4, section 4.11): the client is bound,
    /// and no octet came for the silence. Where none comes for as long again, the session has
    /// ended. It takes no memory.
    pub fn on_moment(&mut self, now: u64) -> Enquiry
        ensures enquiry { result ≡ client_enquiry self.old now }
        ensures session { self.new ≡ after_client_moment self.old now }
    {
        let now = self.hand_in(now);
        if !is_enquired(self.state) {
            return Enquiry::NotDue;
        }
        match self.enquired {
            None => {
                if self.silence == 0 || now.saturating_sub(self.heard) < self.silence {
                    return Enquiry::NotDue;
                }
                self.enquired = Some(now);
                Enquiry::Due(Pdu::header_only(self.alloc, ENQUIRE_LINK, ESME_ROK, ENQUIRY_NUMBER))
            }
            Some(since) => {
                if now.saturating_sub(since) < self.silence {
                    return Enquiry::NotDue;
                }
                self.state = Ended;
                self.silent = true;
                Enquiry::Unanswered
            }
        }
    }

    /// The proxy's unbind to the client (SMPP 3.4, section 4.2), once, where it is bound. It takes
    /// no memory.
    pub fn stop(&mut self) -> Option<Pdu>
        ensures unbind { result ≡ client_farewell self.old.state }
        ensures session { self.new ≡ record self.old {
          state = client_state_after_stop self.old.state;
        } }
    {
        match self.state {
            BoundTx | BoundRx | BoundTrx => {
                self.state = Unbinding;
                Some(Pdu::header_only(self.alloc, UNBIND, ESME_ROK, UNBIND_NUMBER))
            }
            Opened | Unbinding | Ended => None,
        }
    }
}
