//! Requests that were read one behind the other go to the one lane in one hold.
ghost use Rattle.std.specs.Prelude.{◌≡◌, ◌≤◌, ◌<◌, ◌+◌, ◌*◌, ◌++◌, ◌∷◌, map, ℕ, Bool, List, [], true, length, vec_capacity, Some, IfSome, IsSome, Result};
ghost use Rattle.std.specs.List.{AllByRecursion, flat_map};
ghost use Rattle.smx_link.specs.declared.link.Polled.{Polled};
ghost use Rattle.smx_link.specs.declared.link.LinkFault.{LinkFault};
ghost use Rattle.smx_pdu.specs.declared.pdu.Pdu.{Pdu};
ghost use Rattle.smx_pdu.specs.Command.{is_forwarded};
ghost use Rattle.smx_session.specs.ClientAsks.{client_asks};
ghost use Rattle.smx_session.specs.declared.ask.Ask.{Ask};
ghost use Rattle.smx_turns.specs.declared.directory.Query.{Query};
ghost use Rattle.smx_turns.specs.Scenes.{scene};
ghost use Rattle.smx_turns.specs.Worth.{those};
ghost use Rattle.smx_client.specs.Events.{landings_told, submit_told};
ghost use Rattle.smx_client.specs.Parts.{Parts, AreOffersOf};
ghost use Rattle.smx_client.specs.Private.Lists.{back_out, landed_out, list_out, list_length};
ghost use Rattle.smx_client.specs.Sayings.{Spoke};
ghost use Rattle.smx_client.specs.Table.{Before, phase_of, when_listed, Admitted};
ghost use Rattle.smx_client.specs.Turns.{Leads};
ghost use Rattle.smx_shared.specs.declared.fault.SubmitFault.{SubmitFault};

use crate::event::Event;
use crate::ledger::ask;
use crate::saying::{offer_of, tell_accepted, why_unaccepted};
use smx_history::{Response, refusal_of};
use smx_link::{Link, Wire};
use smx_lock::Spent;
use smx_pdu::Pdu;
use smx_pdu::command::is_forwarded;
use smx_session::{Account, Ask, ClientSession};
use smx_shared::{BATCH, Landing, Offer, SpareList, SubmitFault};
use smx_trace::Trace;
use smx_turns::{Gate, Log, Point};
use std::alloc::Global;
use std::collections::VecDeque;

// Empty lists for offers and for what becomes of them.
pub(crate) type Lists = (Vec<Offer>, Vec<Landing>);

/// Lists of which each hold wants one, kept for the next: of requests, of what became of them, and of
/// responses, each with 16 places.
#[derive(Drop)]
pub struct SpareLists {
    pub(crate) offers: SpareList<Offer>,
    pub(crate) landings: SpareList<Landing>,
    pub(crate) responses: SpareList<Response>,
}

impl SpareLists {
    /// None is kept yet. It takes no memory.
    pub fn new() -> SpareLists {
        SpareLists {
            offers: SpareList::new(),
            landings: SpareList::new(),
            responses: SpareList::new(),
        }
    }
}

// Such lists, where there is memory.
pub(crate) fn lists(spares: &mut SpareLists, alloc: Global) -> Option<Lists>
    ensures { IfSome result (λ l. (l.0.items ≡ []) × (16 ≤ vec_capacity l.0)
        × (l.1.items ≡ []) × (16 ≤ vec_capacity l.1)) }
{
    match (spares.offers.list(alloc), spares.landings.list(alloc)) {
        (Ok(offers), Ok(room)) => Some((offers, room)),
        _ => None,
    }
}

// Requests that were read one behind the other, and what they ask for.
pub(crate) struct RequestList {
    pub(crate) read: Trace<Pdu>,
    pub(crate) offers: Vec<Offer>,
}

impl RequestList {
    // One more.
    pub(crate) fn push(&mut self, pdu: Pdu)
        requires forwarded { is_forwarded pdu.command ≡ true }
        requires room { length self.old.offers.items < vec_capacity self.old.offers }
        requires pairs { AreOffersOf self.old.read self.old.offers.items }
        ensures read { self.new.read ≡ self.old.read ++ pdu ∷ [] }
        ensures pairs { AreOffersOf self.new.read self.new.offers.items }
        ensures count { length self.new.offers.items ≡ length self.old.offers.items + 1 }
        ensures room { vec_capacity self.new.offers ≡ vec_capacity self.old.offers }
    {
        self.read = self.read.and(&pdu);
        self.offers.push_reserved(offer_of(pdu));
    }
}

// Hears the requests that stand behind the first and get leave, as many as a list has. The first PDU that
// isn't to be forwarded or gets none waits.
pub(crate) fn gather<L: Link + Drop, G: Gate>(
    wire: &mut Wire<L>,
    session: &ClientSession,
    accounts: &[Account],
    gate: &mut G,
    turn: u64,
    requests: &mut RequestList,
    log: &mut Log<Event>,
) -> Option<Pdu>
    requires goes_on { wire.old.failed ≡ None }
    requires one { length requests.old.offers.items ≡ 1 }
    requires room { 16 ≤ vec_capacity requests.old.offers }
    requires pairs { AreOffersOf requests.old.read requests.old.offers.items }
    ensures heard { (ps : List Pdu) × (requests.new.read ≡ requests.old.read ++ ps)
        × (wire.new.heard ≡ wire.old.heard ++ ps ++ those result)
        × AllByRecursion (λ p.
        client_asks accounts.now session.now.account session.now.state p ≡ Some Ask.Request) ps }
    ensures pairs { AreOffersOf requests.new.read requests.new.offers.items }
    ensures few { length requests.new.offers.items ≤ 16 }
    ensures less { length wire.new.rest ≤ length wire.old.rest }
    ensures fewer { IsSome result → length wire.new.rest < length wire.old.rest }
    ensures same { wire.new ≡ record wire.old { heard = wire.new.heard; rest = wire.new.rest } }
    ensures phase { (t : Before) (ended : Bool) → phase_of t log.old ≡ Admitted ended 1
        → (more : Bool) × (phase_of t log.new
        ≡ when_listed ended (length requests.new.read) more) }
    ensures leads { (queries : List Query) (events : List Event) (parts : Parts)
        (unsent offered : List ℕ) (polls : List (Result Polled LinkFault)) (failures : ℕ)
        → Leads turn
        (scene (G.asked gate.old) (G.told gate.old) queries events parts unsent offered polls
        failures)
        log.old
        (scene (G.asked gate.new) (G.told gate.new) queries events parts unsent offered polls
        failures)
        log.new }
{
    for _ in 1..BATCH {
        match wire.next_command() {
            Some(command) if is_forwarded(command) => {}
            _ => return None,
        }
        let pdu = match wire.hear() {
            Ok(Some(pdu)) => pdu,
            Ok(None) | Err(_) => return None,
        };
        match session.asks(&pdu, accounts) {
            Some(Ask::Request) => {}
            _ => return Some(pdu),
        }
        let admitted = ask(log, gate, Point::Admitting, turn);
        if !admitted {
            return Some(pdu);
        }
        requests.push(pdu);
    }
    None
}

// Says the answer to an offer that came back for this, for which there is room.
fn say_back<L: Link + Drop>(wire: &mut Wire<L>, alloc: Global, offer: &Offer, fault: SubmitFault)
    requires room { 16 ≤ wire.old.room }
    ensures spoke { Spoke wire.old wire.new (back_out offer.now fault ∷ []) }
    ensures left { wire.old.room ≤ wire.new.room + 16 }
{
    let answer = refusal_of(alloc, why_unaccepted(fault), offer.command, offer.own);
    wire.say_within(&answer);
}

// The same of what became of an offer.
fn say_landed<L: Link + Drop>(wire: &mut Wire<L>, alloc: Global, landing: &Landing)
    requires room { 16 ≤ wire.old.room }
    ensures spoke { Spoke wire.old wire.new (landed_out landing.now.landed) }
    ensures left { wire.old.room ≤ wire.new.room + 16 }
{
    match &landing.landed {
        Ok(_) => {}
        Err((offer, fault)) => say_back(wire, alloc, offer, *fault),
    }
}

// Says the answers to those that were refused, in order, and tells the lane for each that was accepted. Their
// list comes back, which is empty.
fn settle_each<L: Link + Drop, G: Gate>(
    wire: &mut Wire<L>,
    gate: &mut G,
    alloc: Global,
    landings: Vec<Landing>,
) -> Vec<Landing>
    requires room { 16 * length landings.items ≤ wire.old.room }
    ensures spoke { Spoke wire.old wire.new (flat_map (λ l. landed_out l.landed) landings.items) }
    ensures told { G.told gate.new
        ≡ G.told gate.old ++ flat_map (λ l. submit_told l.landed) landings.items }
    ensures asked { G.asked gate.new ≡ G.asked gate.old }
{
    let mut left = VecDeque::from_vec(landings);
    while let Some(landing) = left.pop_front() {
        say_landed(wire, alloc, &landing);
        tell_accepted(gate, &landing.landed);
    }
    left.into_vec()
}

// The same where no ticket is left.
fn say_all_back<L: Link + Drop>(wire: &mut Wire<L>, alloc: Global, offers: Vec<Offer>)
    requires room { 16 * length offers.items ≤ wire.old.room }
    ensures spoke { Spoke wire.old wire.new (map (λ o. back_out o SubmitFault.Spent) offers.items) }
{
    for offer in offers {
        say_back(wire, alloc, &offer, SubmitFault::Spent);
    }
}

// Says the answers to the requests of a list that were refused, in order, and tells the lane for each that
// was accepted.
pub(crate) fn settle_list<L: Link + Drop, G: Gate>(
    wire: &mut Wire<L>,
    gate: &mut G,
    alloc: Global,
    spare: &mut SpareList<Landing>,
    landed: Result<Vec<Landing>, (Vec<Offer>, Spent)>,
)
    requires room { 16 * list_length landed ≤ wire.old.room }
    ensures spoke { Spoke wire.old wire.new (list_out landed) }
    ensures told { G.told gate.new ≡ G.told gate.old ++ landings_told landed }
    ensures asked { G.asked gate.new ≡ G.asked gate.old }
{
    match landed {
        Ok(landings) => spare.keep(settle_each(wire, gate, alloc, landings)),
        Err((offers, Spent)) => say_all_back(wire, alloc, offers),
    }
}
