//! What is said to a client.
ghost use Rattle.std.specs.Prelude.{◌≡◌, ◌≢◌, ◌++◌, ◌≤◌, [], ◌∷◌, true, length, IfOk};
ghost use Rattle.smx_pdu.specs.Command.{is_forwarded};
ghost use Rattle.smx_session.specs.declared.act.Act.{Act};
ghost use Rattle.smx_shared.specs.Batches.{octets_of_responses};
ghost use Rattle.smx_client.specs.Events.{act_out, refusal_out, response_out, pdus_of, why_unaccepted, is_none_found, enquiry_out, is_not_due, is_unanswered};
ghost use Rattle.smx_client.specs.Events.{submit_told};
ghost use Rattle.smx_client.specs.Parts.{IsOfferOf};
ghost use Rattle.smx_turns.specs.Worth.{those};
ghost use Rattle.smx_client.specs.Sayings.{Spoke, IsVerdict, asked_of};

use crate::event::Verdict;
use smx_history::{Response, Unaccepted, refusal_of};
use smx_link::{Link, Wire};
use smx_lock::Spent;
use smx_pdu::Pdu;
use smx_session::{Act, Enquiry};
use smx_shared::{Collected, Offer, SpareList, SubmitFault};
use smx_turns::{Gate, Party};
use std::alloc::Global;
use std::collections::VecDeque;

// Says one PDU.
pub(crate) fn say_one<L: Link + Drop>(wire: &mut Wire<L>, pdu: &Pdu)
    requires room { 65536 ≤ wire.old.room }
    ensures { Spoke wire.old wire.new (pdu.now ∷ []) }
{
    wire.say(pdu);
}

// Says nothing.
pub(crate) fn say_none<L: Link + Drop>(wire: &mut Wire<L>)
    ensures { Spoke wire.old wire.new [] }
{
    let _ = wire;
}

// Says a PDU, where there is one.
pub(crate) fn say_some<L: Link + Drop>(wire: &mut Wire<L>, said: &Option<Pdu>)
    requires room { 65536 ≤ wire.old.room }
    ensures { Spoke wire.old wire.new (those said.now) }
{
    match said {
        Some(pdu) => say_one(wire, pdu),
        None => say_none(wire),
    }
}

// Says the responses, one after another, and gives each back, and then their list, which is empty.
fn say_each<L: Link + Drop>(wire: &mut Wire<L>, responses: Vec<Response>) -> Vec<Response>
    requires room { octets_of_responses responses.items ≤ wire.old.room }
    ensures { Spoke wire.old wire.new (pdus_of responses.items) }
{
    let mut left = VecDeque::from_vec(responses);
    while let Some(response) = left.pop_front() {
        let Response { ordinal: _, pdu } = response;
        wire.say_within(&pdu);
        wire.give_back(pdu);
    }
    left.into_vec()
}

// Says the responses that were found, and gives them back. True where there is none.
pub(crate) fn say_found<L: Link + Drop>(
    wire: &mut Wire<L>,
    spare: &mut SpareList<Response>,
    found: Result<Collected, Spent>,
) -> bool
    requires room { IfOk found (λ b. octets_of_responses b.responses.items ≤ wire.old.room) }
    ensures spoke { Spoke wire.old wire.new (response_out found) }
    ensures none { result ≡ is_none_found found }
{
    match found {
        Ok(Collected { responses, more: _ }) => {
            let none = responses.is_empty();
            spare.keep(say_each(wire, responses));
            none
        }
        Err(_) => {
            say_none(wire);
            true
        }
    }
}

// Says what the session's act says.
pub(crate) fn say_act<L: Link + Drop>(wire: &mut Wire<L>, act: &Act)
    requires room { 65536 ≤ wire.old.room }
    ensures { Spoke wire.old wire.new (act_out act.now) }
{
    match act {
        Act::Answer(answer) => say_one(wire, answer),
        Act::Bind { answer, .. } => say_one(wire, answer),
        Act::Refuse(answer) => say_one(wire, answer),
        Act::Leave(answer) => say_one(wire, answer),
        Act::Hangup(answer) => say_one(wire, answer),
        Act::Forward | Act::MoAnswer { .. } | Act::Closed | Act::Ignore => say_none(wire),
    }
}

// Says the enquire_link that is due, where one is.
pub(crate) fn say_enquiry<L: Link + Drop>(wire: &mut Wire<L>, enquiry: &Enquiry)
    requires room { 65536 ≤ wire.old.room }
    ensures { Spoke wire.old wire.new (enquiry_out enquiry.now) }
{
    match enquiry {
        Enquiry::Due(pdu) => say_one(wire, pdu),
        Enquiry::NotDue | Enquiry::Unanswered => say_none(wire),
    }
}

// Whether nothing came of the moment.
pub(crate) fn is_not_due(enquiry: &Enquiry) -> bool
    ensures { result ≡ is_not_due enquiry.now }
{
    matches!(enquiry, Enquiry::NotDue)
}

// Whether the session has ended at the moment.
pub(crate) fn is_unanswered(enquiry: &Enquiry) -> bool
    ensures { result ≡ is_unanswered enquiry.now }
{
    matches!(enquiry, Enquiry::Unanswered)
}

pub(crate) fn why_unaccepted(fault: SubmitFault) -> Unaccepted
    ensures { result ≡ why_unaccepted fault }
{
    match fault {
        SubmitFault::Exhausted | SubmitFault::Spent => Unaccepted::UsedUp,
        SubmitFault::AllFull => Unaccepted::AllFull,
    }
}

// Says the answer to a request that was refused.
pub(crate) fn say_refusal<L: Link + Drop>(
    wire: &mut Wire<L>,
    alloc: Global,
    command: u32,
    number: u32,
    landed: &Result<usize, (Offer, SubmitFault)>,
)
    requires room { 65536 ≤ wire.old.room }
    ensures { Spoke wire.old wire.new (refusal_out (asked_of command number) landed.now) }
{
    match landed {
        Ok(_) => say_none(wire),
        Err((_, fault)) => {
            let answer = refusal_of(alloc, why_unaccepted(*fault), command, number);
            say_one(wire, &answer);
        }
    }
}

// Tells the lane that accepted a request.
#[inline(always)]
pub(crate) fn tell_accepted<G: Gate>(gate: &mut G, landed: &Result<usize, (Offer, SubmitFault)>)
    ensures told { G.told gate.new ≡ G.told gate.old ++ submit_told landed.now }
    ensures asked { G.asked gate.new ≡ G.asked gate.old }
{
    if let Ok(lane) = landed {
        gate.ready(Party::Lane(*lane));
    }
}

// The request that a PDU asks for.
pub(crate) fn offer_of(pdu: Pdu) -> Offer
    requires { is_forwarded pdu.command ≡ true }
    ensures { IsOfferOf pdu result }
{
    let Pdu {
        command,
        status: _,
        number,
        body,
    } = pdu;
    Offer {
        own: number,
        command,
        body,
    }
}

// What is still to be done after the act.
pub(crate) fn verdict_of(act: &Act) -> Verdict
    requires { act.now ≢ Act.Forward }
    ensures { IsVerdict act.now result }
{
    match act {
        Act::Forward => unreachable!(),
        Act::MoAnswer { .. } => Verdict::Settle,
        Act::Bind { kind, account, .. } => Verdict::Bound(*kind, *account),
        Act::Leave(_) | Act::Hangup(_) | Act::Closed => Verdict::Over,
        Act::Answer(_) | Act::Refuse(_) | Act::Ignore => Verdict::Next,
    }
}
