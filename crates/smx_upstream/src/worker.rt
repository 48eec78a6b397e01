//! The upstream worker.
ghost use Rattle.std.specs.Prelude.{◌≡◌, ◌≤◌, ◌+◌, ◌++◌, [], ◌∷◌, false, None, IfOk, IfErr, length};
ghost use Rattle.std.specs.List.{flat_map};
ghost use Rattle.smx_pdu.specs.Pdu.{spelling};
ghost use Rattle.smx_link.specs.Links.{fault_count};
ghost use Rattle.smx_session.specs.declared.upstream_state.UpstreamState.TheVariants.{Binding};
ghost use Rattle.smx_turns.specs.declared.step.Step.TheVariants.{Did};
ghost use Rattle.smx_upstream.specs.Ages.{new_age};
ghost use Rattle.smx_turns.specs.Endings.{ending_of};
ghost use Rattle.smx_turns.specs.Worth.{those, IsWorth};
ghost use Rattle.smx_upstream.specs.Events.{worth, is_quiet_event};
ghost use Rattle.smx_upstream.specs.Standing.{bind_of, stand, AreEmptied};

use crate::age::Age;
use crate::bringing::SpareLists;
use crate::event::Event;
use crate::last::LastRequest;
use smx_box::{Receiver, Sender};
use smx_link::{Link, LinkFault, Wire};
use smx_pdu::Pdu;
use smx_routes::MoWindow;
use smx_session::{UpstreamSession, UpstreamState};
use smx_shared::Tap;
use smx_trace::Trace;
use smx_turns::{End, Fault, Log, MoItem, Outcome, Step, TurnEnd};
use std::alloc::Global;
use std::marker::Model;
use std::snapshot::Snapshot;

/// What a worker is made of.
#[derive(Drop)]
pub struct Parts<L: Link + Drop> {
    pub link: L,
    pub tap: Tap,
    pub session: UpstreamSession,
    /// The lane's return box: answers of clients to the centre's messages.
    pub answers: Receiver<Pdu>,
    /// The senders of the clients' boxes, at the index of their slot.
    pub senders: Vec<Sender<MoItem>>,
    /// For each slot the messages that its client has and has not answered: what is left of an earlier
    /// link is let go, and its numbers go on.
    pub owed: Vec<MoWindow>,
}

// The parts as a worker was handed them, for contracts alone.
#[derive(Drop)]
pub(crate) struct Origin {
    pub tap: Snapshot<Tap>,
    pub session: Snapshot<UpstreamSession>,
    pub answers: Snapshot<Receiver<Pdu>>,
    pub senders: Snapshot<Vec<Sender<MoItem>>>,
    pub owed: Snapshot<Vec<MoWindow>>,
    pub age: Snapshot<Age>,
}

impl Origin {
    fn of(
        tap: &Tap,
        session: &UpstreamSession,
        answers: &Receiver<Pdu>,
        senders: &Vec<Sender<MoItem>>,
        owed: &Vec<MoWindow>,
        age: &Age,
    ) -> Origin
        ensures tap { result.tap.value ≡ tap.now }
        ensures session { result.session.value ≡ session.now }
        ensures answers { result.answers.value ≡ answers.now }
        ensures senders { result.senders.value ≡ senders.now }
        ensures owed { result.owed.value ≡ owed.now }
        ensures age { result.age.value ≡ age.now }
    {
        Origin {
            tap: Snapshot::of(tap),
            session: Snapshot::of(session),
            answers: Snapshot::of(answers),
            senders: Snapshot::of(senders),
            owed: Snapshot::of(owed),
            age: Snapshot::of(age),
        }
    }
}

/// Serves one bind with the centre. Contracts see the PDUs over its link, what it stands on, now
/// and as it was handed over, and all that it did.
#[derive(Drop)]
pub struct UpstreamWorker<L: Link + Drop> {
    pub(crate) alloc: Global,
    pub(crate) wire: Wire<L>,
    pub(crate) tap: Tap,
    pub(crate) session: UpstreamSession,
    pub(crate) answers: Receiver<Pdu>,
    pub(crate) senders: Vec<Sender<MoItem>>,
    // The messages of this link that clients have and have not answered.
    pub(crate) owed: Vec<MoWindow>,
    // A whole PDU that isn't decided yet.
    pub(crate) held: Option<Pdu>,
    // How the work ended, where nothing but writing is left to do.
    pub(crate) ending: Option<End>,
    pub(crate) age: Age,
    pub(crate) origin: Origin,
    pub(crate) events: Trace<Event>,
    // The request that was sent last.
    pub(crate) last: Option<LastRequest>,
    // Those of the last turn.
    pub(crate) steps: Trace<Step<Event>>,
    // How the turns ended.
    pub(crate) ends: Trace<Result<TurnEnd, Fault>>,
    // Lists for the next holds, which no contract sees.
    pub(crate) spares: SpareLists,
}

impl<L: Link + Drop> Model for UpstreamWorker<L> {
    ghost use Rattle.smx_upstream.specs.Standing.{stand};
    ghost use Rattle.smx_upstream.specs.Working.{Working, IsWorker};

    ghost Value = { Working L };

    ghost view = { λ w. record {
      wire = w.wire;
      stand = stand w.session w.tap w.answers w.senders.items w.owed.items w.age;
      first = stand w.origin.session.value w.origin.tap.value w.origin.answers.value
          w.origin.senders.value.items w.origin.owed.value.items w.origin.age.value;
      held = w.held;
      ending = w.ending;
      events = w.events;
      last = w.last;
      steps = w.steps;
      ends = w.ends;
    } };

    ghost invariant = { λ w. IsWorker (record {
      wire = w.wire;
      stand = stand w.session w.tap w.answers w.senders.items w.owed.items w.age;
      first = stand w.origin.session.value w.origin.tap.value w.origin.answers.value
          w.origin.senders.value.items w.origin.owed.value.items w.origin.age.value;
      held = w.held;
      ending = w.ending;
      events = w.events;
      last = w.last;
      steps = w.steps;
      ends = w.ends;
    }) };
}

/// How many lists of bodies are kept to be used again: as many as requests can be unanswered.
const LISTS: usize = 1_024;

// Writes down an event that sends nothing.
pub(crate) fn jot(event: Event, quiet: bool, events: &mut Trace<Event>, log: &mut Log<Event>)
    requires quiet { quiet ≡ is_quiet_event event }
    ensures events { events.new ≡ events.old ++ event ∷ [] }
    ensures log { log.new ≡ log.old ++ Did event ∷ [] }
{
    *events = events.and(&event);
    log.push(&Step::Did(event), quiet);
}

// Says a PDU, where there is one.
pub(crate) fn send<L: Link + Drop>(sent: &Option<Pdu>, wire: &mut Wire<L>)
    requires room { 65536 ≤ wire.old.room }
    ensures said { wire.new.said ≡ wire.old.said ++ those sent.now }
    ensures unsent { wire.new.unsent ≡ wire.old.unsent ++ flat_map spelling (those sent.now) }
    ensures same { wire.new ≡ record wire.old {
      said = wire.new.said;
      unsent = wire.new.unsent;
      room = wire.new.room;
    } }
{
    if let Some(pdu) = sent {
        wire.say(pdu);
    }
}

// Gives a PDU back that was said, where there is one.
fn give_back<L: Link + Drop>(sent: Option<Pdu>, wire: &mut Wire<L>)
    ensures { wire.new ≡ wire.old }
{
    if let Some(pdu) = sent {
        wire.give_back(pdu);
    }
}

// Writes down an event, says what it sends, and hands back what its caller learns.
pub(crate) fn note<L: Link + Drop, A: Drop>(
    outcome: Outcome<Event, A>,
    wire: &mut Wire<L>,
    events: &mut Trace<Event>,
    log: &mut Log<Event>,
) -> A
    requires room { 65536 ≤ wire.old.room }
    requires worth { IsWorth outcome (worth outcome.event) }
    ensures answer { result ≡ outcome.answer }
    ensures said { wire.new.said ≡ wire.old.said ++ (worth outcome.event).said }
    ensures unsent { wire.new.unsent
        ≡ wire.old.unsent ++ flat_map spelling (worth outcome.event).said }
    ensures same { wire.new ≡ record wire.old {
      said = wire.new.said;
      unsent = wire.new.unsent;
      room = wire.new.room;
    } }
    ensures events { events.new ≡ events.old ++ outcome.event ∷ [] }
    ensures log { log.new ≡ log.old ++ Did outcome.event ∷ [] }
{
    send(&outcome.sent, wire);
    jot(outcome.event, outcome.quiet, events, log);
    give_back(outcome.sent, wire);
    outcome.answer
}

// A wire over a link that keeps so many lists.
fn wire_over<L: Link + Drop>(alloc: Global, link: L) -> Wire<L>
    ensures link { (result.link ≡ link) × (result.start ≡ link) }
    ensures none { (result.heard ≡ []) × (result.said ≡ []) }
    ensures octets { (result.rest ≡ []) × (result.unsent ≡ []) }
    ensures failed { result.failed ≡ None }
{
    let mut wire = Wire::new(alloc, link);
    wire.keep(LISTS);
    wire
}

// Lets all that waits go.
fn let_go(owed: &mut Vec<MoWindow>)
    ensures { AreEmptied owed.old.items owed.new.items }
{
    for slot in 0..owed.len() {
        owed[slot].clear();
    }
}

impl<L: Link + Drop> UpstreamWorker<L> {
    /// A worker whose first PDU is the session's bind (SMPP 3.4, section 4.1.5). It takes memory
    /// for 131,072 octets; where that is wanted the parts come back. Its lane's history may have
    /// `history` entries; an eighth of these, and 500, is worth a shift. A request that is not answered within
    /// `response_timer` milliseconds of its take is given up (section 7.2), at most one in a turn: once
    /// nothing more comes, or after twice that time.
    pub fn new(
        alloc: Global,
        parts: Parts<L>,
        history: usize,
        response_timer: u64,
    ) -> Result<UpstreamWorker<L>, Parts<L>>
        requires state { parts.session.state ≡ Binding }
        ensures link { IfOk result (λ w. (w.wire.link ≡ parts.link) × (w.wire.start ≡ parts.link)) }
        ensures stand { IfOk result (λ w. w.stand
            ≡ stand parts.session parts.tap parts.answers parts.senders.items
            w.stand.owed (new_age history response_timer)) }
        ensures owed { IfOk result (λ w. AreEmptied parts.owed.items w.stand.owed) }
        ensures first { IfOk result (λ w. w.first ≡ w.stand) }
        ensures said { IfOk result (λ w. w.wire.said ≡ bind_of parts.session ∷ []) }
        ensures ready { IfOk result (λ w. (w.held ≡ None) × (w.ending ≡ None)) }
        ensures err { IfErr result (λ p. p ≡ parts) }
    {
        let Ok(bind) = parts.session.start() else {
            return Err(parts);
        };
        let Parts {
            link,
            tap,
            session,
            answers,
            senders,
            mut owed,
        } = parts;
        let mut wire = wire_over(alloc, link);
        if wire.make_room().is_err() {
            let link = wire.into_link();
            return Err(Parts {
                link,
                tap,
                session,
                answers,
                senders,
                owed,
            });
        }
        let_go(&mut owed);
        let age = Age::new(history, response_timer);
        let origin = Origin::of(&tap, &session, &answers, &senders, &owed, &age);
        let event = Event::Began(Snapshot::of(&bind));
        wire.say(&bind);
        Ok(UpstreamWorker {
            alloc,
            wire,
            tap,
            session,
            answers,
            senders,
            owed,
            held: None,
            ending: None,
            age,
            origin,
            events: Trace::new().and(&event),
            last: None,
            steps: Trace::new(),
            ends: Trace::new(),
            spares: SpareLists::new(),
        })
    }

    /// Where the session stands.
    pub fn state(&self) -> UpstreamState
        ensures { result ≡ self.now.stand.session.state }
    {
        self.session.state()
    }

    /// How its work ended, where nothing but writing is left to do. A turn that met a fault tells that
    /// itself.
    pub fn ending(&self) -> Option<End>
        ensures { result ≡ ending_of worth self.now.events }
    {
        self.ending
    }

    /// How many octets wait to be written.
    pub fn unsent(&self) -> usize
        ensures { result ≡ length self.now.wire.unsent }
    {
        self.wire.unsent()
    }

    /// Offers the link what waits, between two turns: so no turn is wanted for that alone. The next turn offers
    /// what the link doesn't take, and meets the fault of a link that has failed.
    pub fn offer_rest(&mut self) -> Result<(), LinkFault>
        ensures offered { L.offered self.new.wire.link
            ≡ L.offered self.old.wire.link ++ self.old.wire.unsent }
        ensures unread { L.polls self.new.wire.link ≡ L.polls self.old.wire.link }
        ensures failures { L.failures self.new.wire.link
            ≡ L.failures self.old.wire.link + fault_count result }
        ensures same { self.new ≡ record self.old {
          wire = record self.old.wire { link = self.new.wire.link; unsent = self.new.wire.unsent };
        } }
    {
        self.wire.offer()
    }
}
