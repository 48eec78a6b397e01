//! The session with a centre.
ghost use Rattle.std.specs.Prelude.{◌≡◌, IfOk, None};
ghost use Rattle.smx_session.specs.declared.kind.Kind.{Kind};
ghost use Rattle.smx_session.specs.UpstreamTable.{upstream_row, upstream_cell, upstream_decision};
ghost use Rattle.smx_session.specs.Moments.{enquired_after};

use crate::kind::Kind;
use crate::up_act::UpAct;
use crate::upstream_bind::UpstreamBind;
use crate::upstream_row::{
    BIND_NUMBER, ENQUIRY_NUMBER, UNBIND_NUMBER, UpstreamRow, bind_command, upstream_row,
};
use crate::upstream_state::UpstreamState::{self, Binding, Bound, Ended, Unbinding};
use smx_pdu::command::{ENQUIRE_LINK, UNBIND};
use smx_pdu::status::{ESME_RINVBNDSTS, ESME_ROK};
use smx_pdu::{Bind, Body, Pdu, write_bind};
use std::alloc::{AllocError, Global};
use std::marker::Model;

/// The session with a message centre, in which the proxy is an ESME that binds. Moments are in
/// milliseconds from any origin; one below the last one handed in counts as the last one. Contracts
/// see a session as its bind, its state and its moments.
#[derive(Drop)]
pub struct UpstreamSession {
    alloc: Global,
    bind: UpstreamBind,
    silence: u64,
    state: UpstreamState,
    // The last moment that was handed in.
    latest: u64,
    // That of the last PDU, at first that of the start.
    heard: u64,
    // Since when an enquiry is unanswered.
    enquired: Option<u64>,
}

impl Model for UpstreamSession {
    ghost use Rattle.smx_pdu.specs.Reading.{BindFits};
    ghost use Rattle.smx_session.specs.Binds.{own_bind};
    ghost use Rattle.smx_session.specs.Moments.{Upstream};

    ghost Value = { Upstream };

    ghost view = { λ s. record {
      bind = s.bind;
      silence = s.silence;
      state = s.state;
      latest = s.latest;
      heard = s.heard;
      enquired = s.enquired;
    } };

    ghost invariant = { λ s. BindFits (own_bind s.bind) };
}

// What becomes of a PDU in this state, and the state after it.
fn decide(
    alloc: Global,
    row: UpstreamRow,
    state: UpstreamState,
    pdu: &Pdu,
) -> (UpAct, UpstreamState)
    requires { (kind : Kind) × (row ≡ upstream_row kind pdu.now.command pdu.now.number) }
    ensures { result ≡ upstream_decision (upstream_cell row state) state pdu.now }
{
    match (row, state) {
        (UpstreamRow::BindAnswer, Binding) if pdu.status == ESME_ROK => (UpAct::Up, Bound),
        (UpstreamRow::BindAnswer | UpstreamRow::BindNack, Binding) => {
            (UpAct::Failed(pdu.status), Ended)
        }
        (UpstreamRow::UnbindAnswer, Unbinding) => (UpAct::Closed, Ended),
        (UpstreamRow::OtherResponse, Bound | Unbinding) => (UpAct::ToLane, state),
        (UpstreamRow::Message, Bound) => (UpAct::Mo, state),
        (UpstreamRow::EnquireLink, Binding | Bound | Unbinding) => {
            (UpAct::Answer(pdu.header_response(alloc, ESME_ROK)), state)
        }
        (UpstreamRow::Unbind, Binding | Bound | Unbinding) => {
            (UpAct::Leave(pdu.header_response(alloc, ESME_ROK)), Ended)
        }
        (UpstreamRow::Unknown, _) => (UpAct::Answer(Pdu::unknown(alloc, pdu.number)), state),
        // Each other request isn't allowed in its state.
        (
            UpstreamRow::Message
            | UpstreamRow::MessageToTransmitter
            | UpstreamRow::EnquireLink
            | UpstreamRow::Unbind
            | UpstreamRow::OtherRequest,
            _,
        ) => (
            UpAct::Answer(pdu.header_response(alloc, ESME_RINVBNDSTS)),
            state,
        ),
        _ => (UpAct::Ignore, state),
    }
}

// Since when an enquiry is unanswered then.
fn enquired_after(row: UpstreamRow, state: UpstreamState, since: Option<u64>) -> Option<u64>
    ensures { result ≡ enquired_after (upstream_cell row state) since }
{
    match (row, state) {
        (UpstreamRow::EnquiryAnswer, Bound) => None,
        _ => since,
    }
}

impl UpstreamSession {
    ghost use Rattle.smx_pdu.specs.Fields.{IsText};
    ghost use Rattle.smx_session.specs.UpstreamTable.{own_bind_pdu};
    ghost use Rattle.smx_session.specs.Moments.{at, act_on, after_pdu, enquiry, after_moment, is_silent, farewell, state_after_stop};

    /// A session that isn't bound yet, with its bind, the silence after which it enquires, in
    /// milliseconds, and the moment now. It takes no memory.
    pub fn new(alloc: Global, bind: UpstreamBind, silence: u64, now: u64) -> UpstreamSession
        requires system_id { IsText 16 bind.system_id }
        requires password { IsText 9 bind.password }
        requires system_type { IsText 13 bind.system_type }
        requires address_range { IsText 41 bind.address_range }
        ensures { result ≡ record {
          bind = bind;
          silence = silence;
          state = UpstreamState.Binding;
          latest = now;
          heard = now;
          enquired = None;
        } }
    {
        UpstreamSession {
            alloc,
            bind,
            silence,
            state: Binding,
            latest: now,
            heard: now,
            enquired: None,
        }
    }

    /// A session that is bound, with the same bind, silence and moment. It takes no memory.
    pub fn bound(alloc: Global, bind: UpstreamBind, silence: u64, now: u64) -> UpstreamSession
        requires system_id { IsText 16 bind.system_id }
        requires password { IsText 9 bind.password }
        requires system_type { IsText 13 bind.system_type }
        requires address_range { IsText 41 bind.address_range }
        ensures { result ≡ record {
          bind = bind;
          silence = silence;
          state = UpstreamState.Bound;
          latest = now;
          heard = now;
          enquired = None;
        } }
    {
        let mut session = UpstreamSession::new(alloc, bind, silence, now);
        session.state = Bound;
        session
    }

    pub fn state(&self) -> UpstreamState
        ensures { result ≡ self.now.state }
    {
        self.state
    }

    /// How the proxy binds.
    pub fn kind(&self) -> Kind
        ensures { result ≡ self.now.bind.kind }
    {
        self.bind.kind
    }

    /// The last moment that was handed in, in milliseconds.
    pub fn latest(&self) -> u64
        ensures { result ≡ self.now.latest }
    {
        self.latest
    }

    /// The proxy's bind (SMPP 3.4, section 4.1), which is sent first. It takes memory for its body.
    pub fn start(&self) -> Result<Pdu, AllocError>
        ensures { IfOk result (λ p. p ≡ own_bind_pdu self.now.bind) }
    {
        let mut octets = Vec::new(self.alloc);
        let bind = Bind {
            system_id: &self.bind.system_id,
            password: &self.bind.password,
            system_type: &self.bind.system_type,
            interface_version: self.bind.interface_version,
            addr_ton: 0,
            addr_npi: 0,
            address_range: &self.bind.address_range,
        };
        write_bind(&bind, &mut octets)?;
        Ok(Pdu {
            command: bind_command(self.bind.kind),
            status: ESME_ROK,
            number: BIND_NUMBER,
            body: Body::short(octets),
        })
    }

    // Hands in a moment.
    fn hand_in(&mut self, now: u64) -> u64
        ensures value { result ≡ (at self.old now).latest }
        ensures latest { self.new ≡ at self.old now }
    {
        self.latest = self.latest.max(now);
        self.latest
    }

    /// Decides a PDU of the centre. It takes no memory.
    #[inline(always)]
    pub fn on_pdu(&mut self, pdu: &Pdu, now: u64) -> UpAct
        ensures act { result ≡ act_on self.old pdu.now }
        ensures session { self.new ≡ after_pdu self.old pdu.now now }
    {
        let row = upstream_row(self.bind.kind, pdu.command, pdu.number);
        let (act, state) = decide(self.alloc, row, self.state, pdu);
        self.heard = self.hand_in(now);
        self.enquired = enquired_after(row, self.state, self.enquired);
        self.state = state;
        act
    }

    /// The enquire_link that is due at this moment (SMPP 3.4, section 4.11): nothing was heard for
    /// the silence. It takes no memory.
    pub fn on_moment(&mut self, now: u64) -> Option<Pdu>
        ensures enquiry { result ≡ enquiry self.old now }
        ensures session { self.new ≡ after_moment self.old now }
    {
        let now = self.hand_in(now);
        let is_due = self.state == Bound
            && self.enquired.is_none()
            && now.saturating_sub(self.heard) >= self.silence;
        if !is_due {
            return None;
        }
        self.enquired = Some(now);
        Some(Pdu::header_only(self.alloc, ENQUIRE_LINK, ESME_ROK, ENQUIRY_NUMBER))
    }

    /// Whether an enquiry is unanswered for the silence at this moment. It takes no memory.
    pub fn is_silent(&mut self, now: u64) -> bool
        ensures silent { result ≡ is_silent self.old now }
        ensures session { self.new ≡ at self.old now }
    {
        let now = self.hand_in(now);
        match self.enquired {
            Some(since) => now.saturating_sub(since) >= self.silence,
            None => false,
        }
    }

    /// The proxy's unbind (SMPP 3.4, section 4.2), once, where it is bound. It takes no memory.
    pub fn stop(&mut self) -> Option<Pdu>
        ensures unbind { result ≡ farewell self.old.state }
        ensures session { self.new ≡ record self.old { state = state_after_stop self.old.state } }
    {
        if self.state != Bound {
            return None;
        }
        self.state = Unbinding;
        Some(Pdu::header_only(self.alloc, UNBIND, ESME_ROK, UNBIND_NUMBER))
    }
}
