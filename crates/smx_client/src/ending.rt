//! How a worker's work ended, and which bind of its client was refused.
ghost use Rattle.std.specs.Prelude.{◌≡◌, Some, IfSome, IfNone};
ghost use Rattle.smx_turns.specs.Endings.{or_end, ending_of};
ghost use Rattle.smx_client.specs.Events.{act_worth, silent_end, worth};
ghost use Rattle.smx_client.specs.Refusals.{refused_by, last_refused};

use crate::worker::ClientWorker;
use smx_link::Link;
use smx_pdu::Pdu;
use smx_session::Act;
use smx_turns::End;

/// A bind of the client that was refused: as it came, and with which status.
#[derive(Drop)]
pub struct Refusal {
    pub status: u32,
    pub bind: Pdu,
}

// The first end stands.
pub(crate) fn or_end(was: Option<End>, end: Option<End>) -> Option<End>
    ensures { result ≡ or_end was end }
{
    match was {
        Some(_) => was,
        None => end,
    }
}

// How the session's act ends the work.
fn act_end(act: &Act) -> Option<End>
    ensures { result ≡ (act_worth act.now).ends }
{
    match act {
        Act::Leave(_) => Some(End::Left),
        Act::Hangup(_) => Some(End::BadLength),
        Act::Closed => Some(End::Stopped),
        Act::Answer(_) | Act::Bind { .. } | Act::Refuse(_) => None,
        Act::Forward | Act::MoAnswer { .. } | Act::Ignore => None,
    }
}

// How a silence does.
pub(crate) fn silent_end(silent: bool) -> Option<End>
    ensures { result ≡ silent_end silent }
{
    if silent { Some(End::Silent) } else { None }
}

// The last bind that was refused, once the session decided this PDU so.
fn refused_by(last: Option<Refusal>, act: &Act, pdu: Pdu) -> Option<Refusal>
    ensures { result ≡ refused_by pdu act.now last }
{
    match act {
        Act::Refuse(answer) => Some(Refusal {
            status: answer.status,
            bind: pdu,
        }),
        _ => last,
    }
}

// What the session's act on this PDU ends, and whether it refuses a bind.
pub(crate) fn take_in(ending: &mut Option<End>, refused: &mut Option<Refusal>, act: Act, pdu: Pdu)
    ensures ending { ending.new ≡ or_end ending.old (act_worth act).ends }
    ensures refused { refused.new ≡ refused_by pdu act refused.old }
{
    *ending = or_end(*ending, act_end(&act));
    *refused = refused_by(refused.take(), &act, pdu);
}

impl<'d, L: Link + Drop> ClientWorker<'d, L> {
    /// How its work ended, where nothing but writing is left to do. A turn that met a fault tells that
    /// itself.
    pub fn ending(&self) -> Option<End>
        ensures { result ≡ ending_of worth self.now.events }
    {
        self.ending
    }

    /// The last bind of its client that was refused, where one was. It is kept whole, at most 65,536
    /// octets, as long as the worker.
    pub fn refused(&self) -> Option<&Refusal>
        ensures some { IfSome result (λ refusal. last_refused self.now.events ≡ Some refusal.now) }
        ensures none { IfNone result (last_refused self.now.events ≡ None) }
    {
        match &self.refused {
            Some(refusal) => Some(refusal),
            None => None,
        }
    }
}
