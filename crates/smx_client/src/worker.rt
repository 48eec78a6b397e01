//! A client's worker, and what it keeps at every call.
ghost use Rattle.std.specs.Prelude.{◌≡◌, ◌≢◌, ◌+◌, ◌++◌, ◌<◌, ℕ, List, [], length, None, IfOk, IfErr, true, All};
ghost use Rattle.smx_frame.specs.Stream.{HasNone};
ghost use Rattle.smx_link.specs.Wiring.{spellings};
ghost use Rattle.smx_link.specs.Links.{fault_count};
ghost use Rattle.smx_routes.specs.Window.{IsSize};
ghost use Rattle.smx_session.specs.ClientMoments.{client_at};
ghost use Rattle.smx_session.specs.ClientTable.{client_enquiry_number};
ghost use Rattle.smx_session.specs.declared.client_state.ClientState.TheVariants.{Opened, Ended};
ghost use Rattle.smx_shared.specs.Offers.{Accepted};
ghost use Rattle.smx_shared.specs.Ports.{HasAccepted};
ghost use Rattle.smx_client.specs.declared.stage.Stage.{Stage};
ghost use Rattle.smx_client.specs.Replies.{put_in, parked_on};
ghost use Rattle.smx_client.specs.Events.{worth, accepts, answers};
ghost use Rattle.smx_turns.specs.Wires.{IsBad, has_ended};
ghost use Rattle.smx_turns.specs.Worth.{those, ins, outs, has_broken};
ghost use Rattle.smx_client.specs.Parts.{parts, Chain};

use crate::desk::Desk;
use crate::ending::Refusal;
use crate::event::Event;
use crate::listing::SpareLists;
use crate::reply::Parked;
use crate::stage::Stage;
use smx_box::{Receiver, Sender};
use smx_link::{Link, LinkFault, Wire};
use smx_pdu::Pdu;
use smx_routes::MoWindow;
use smx_session::{ClientSession, ClientState};
use smx_shared::Port;
use smx_trace::Trace;
use smx_turns::{End, Fault, MoItem, Step, TurnEnd};
use std::alloc::Global;
use std::marker::Model;
use std::mem;
use std::snapshot::Snapshot;

mod admitting;
mod boxing;
mod closing;
mod collecting;
mod deciding;
mod forwarding;
mod heeding;
mod running;
mod stopping;
mod turning;

pub use running::run_client;

/// The parts as they were handed over, for contracts alone.
#[derive(Drop)]
pub struct Origin {
    port: Snapshot<Port>,
    session: Snapshot<ClientSession>,
    window: Snapshot<MoWindow>,
    inbox: Snapshot<Receiver<MoItem>>,
    senders: Snapshot<Vec<Sender<Pdu>>>,
}

/// A client's worker. Its turns read PDUs from the link, decide each once and in order, submit
/// requests to the lanes, and write to the link what they collected, got and decided.
#[derive(Drop)]
pub struct ClientWorker<'d, L: Link + Drop> {
    alloc: Global,
    desk: &'d Desk,
    port: Port,
    session: ClientSession,
    inbox: Receiver<MoItem>,
    senders: Vec<Sender<Pdu>>,
    window: MoWindow,
    // How long a message may wait, in milliseconds. 0: for ever.
    message_time: u64,
    wire: Wire<L>,
    // The PDU that was heard and not decided yet.
    held: Option<Pdu>,
    // The answer to a message that a return box refused.
    parked: Option<Parked>,
    // How the work ended, where nothing but writing is left to do.
    pub(crate) ending: Option<End>,
    // The last bind that was refused.
    pub(crate) refused: Option<Refusal>,
    // Whether every whole PDU that came was decided.
    settled: bool,
    stage: Stage,
    turns: u64,
    // The steps of the last turn.
    steps: Trace<Step<Event>>,
    // How each turn ended.
    ends: Trace<Result<TurnEnd, Fault>>,
    origin: Origin,
    events: Trace<Event>,
    // Lists for the next holds, which no contract sees.
    spares: SpareLists,
}

impl<'d, L: Link + Drop> Model for ClientWorker<'d, L> {
    ghost use Rattle.smx_client.specs.Serving.{Serving, IsServing};

    ghost Value = { Serving L };

    ghost view = { λ w. record {
      desk = w.desk.now;
      port = w.port;
      session = w.session;
      inbox = w.inbox;
      senders = w.senders.items;
      window = w.window;
      message_time = w.message_time;
      wire = w.wire;
      held = w.held;
      parked = w.parked;
      ending = w.ending;
      refused = w.refused;
      settled = w.settled;
      stage = w.stage;
      turns = w.turns;
      steps = w.steps;
      ends = w.ends;
      origin = w.origin;
      events = w.events;
    } };

    ghost invariant = { λ w. IsServing L.polls (record {
      desk = w.desk.now;
      port = w.port;
      session = w.session;
      inbox = w.inbox;
      senders = w.senders.items;
      window = w.window;
      message_time = w.message_time;
      wire = w.wire;
      held = w.held;
      parked = w.parked;
      ending = w.ending;
      refused = w.refused;
      settled = w.settled;
      stage = w.stage;
      turns = w.turns;
      steps = w.steps;
      ends = w.ends;
      origin = w.origin;
      events = w.events;
    }) };
}

impl<'d, L: Link + Drop> ClientWorker<'d, L> {
    /// A worker over these parts: the client's port, who may bind, the box of its slot, a sender
    /// for the return box of each lane in their order, how many messages may wait for an answer (1
    /// to 256), its link, the silence after which it enquires and how long a message may wait (in
    /// milliseconds, 0: for ever), and the moment now. All parts come back where there is no memory for the window.
    pub fn new(
        alloc: Global,
        port: Port,
        desk: &'d Desk,
        inbox: Receiver<MoItem>,
        senders: Vec<Sender<Pdu>>,
        places: u32,
        link: L,
        silence: u64,
        message_time: u64,
        now: u64,
    ) -> Result<ClientWorker<'d, L>, (Port, Receiver<MoItem>, Vec<Sender<Pdu>>, L)>
        requires lanes { length senders.items ≡ length port.fronts }
        requires places { IsSize places }
        ensures port { IfOk result (λ w. (w.port ≡ port) × (w.origin.port.value ≡ port)) }
        ensures session { IfOk result
            (λ w. (w.session ≡ client_at Opened silence now)
            × (w.origin.session.value ≡ w.session)) }
        ensures message_time { IfOk result (λ w. w.message_time ≡ message_time) }
        ensures desk { IfOk result (λ w. w.desk ≡ desk.now) }
        ensures boxes { IfOk result
            (λ w. (w.origin.inbox.value ≡ inbox) × (w.origin.senders.value ≡ senders)) }
        ensures window { IfOk result
            (λ w. (w.origin.window.value.waiting ≡ []) × (w.origin.window.value.places ≡ places)) }
        ensures link { IfOk result (λ w. (w.wire.start ≡ link) × (w.wire.failed ≡ None)) }
        ensures unused { IfOk result (λ w. w.wire.link ≡ link) }
        ensures none { IfOk result
            (λ w. (w.held ≡ None) × (w.parked ≡ None) × (w.events ≡ []) × (w.turns ≡ 0)) }
        ensures stage { IfOk result (λ w. (w.stage ≡ Stage.Open) × (w.settled ≡ true)) }
        ensures back { IfErr result
            (λ e. (e.0 ≡ port) × (e.1 ≡ inbox) × (e.2 ≡ senders) × (e.3 ≡ link)) }
    {
        let Ok(window) = MoWindow::new(alloc, places) else {
            return Err((port, inbox, senders, link));
        };
        let session = ClientSession::new(alloc, silence, now);
        let origin = Origin {
            port: Snapshot::of(&port),
            session: Snapshot::of(&session),
            window: Snapshot::of(&window),
            inbox: Snapshot::of(&inbox),
            senders: Snapshot::of(&senders),
        };
        Ok(ClientWorker {
            alloc,
            desk,
            port,
            session,
            inbox,
            senders,
            window,
            message_time,
            wire: Wire::new(alloc, link),
            held: None,
            parked: None,
            ending: None,
            refused: None,
            settled: true,
            stage: Stage::Open,
            turns: 0,
            steps: Trace::new(),
            ends: Trace::new(),
            origin,
            events: Trace::new(),
            spares: SpareLists::new(),
        })
    }

    /// What the worker keeps at every call. In: what the link gave are the PDUs that were decided,
    /// then one that waits, then octets that no PDU has. Out: what it took, and then what waits, is
    /// what the events say. The port accepted what the events submitted. Each return box was put,
    /// or is to be put, the answers of the events. Each event is one step of the parts. Where the
    /// worker has settled, no whole PDU is left. No message that waits bears an enquiry's number. While it is open, the last read since it was made
    /// answered no end; where it is drained, it did. It is closed only once the session has ended,
    /// or the link has and every whole PDU was decided.
    pub fn law(&self)
        ensures given { L.given self.now.wire.link ≡ L.given self.now.wire.start
            ++ (spellings (ins worth self.now.events ++ those self.now.held) ++ self.now.wire.rest) }
        ensures taken { L.taken self.now.wire.link ++ self.now.wire.unsent
            ≡ L.taken self.now.wire.start ++ spellings (outs worth self.now.events) }
        ensures accepts { ∥ ((all : List Accepted) → HasAccepted self.now.origin.port.value all
            → HasAccepted self.now.port (all ++ accepts self.now.events)) ∥₁ }
        ensures answers { (k : ℕ) → k < length self.now.origin.senders.value.items
            → put_in self.now.senders k ++ parked_on k self.now.parked
            ≡ put_in self.now.origin.senders.value.items k ++ answers k self.now.events }
        ensures chain { Chain
            (parts self.now.desk [] self.now.origin.port.value self.now.origin.session.value
            self.now.origin.window.value self.now.origin.inbox.value
            self.now.origin.senders.value.items None)
            self.now.events
            (parts self.now.desk self.now.wire.said self.now.port self.now.session
            self.now.window self.now.inbox self.now.senders self.now.parked) }
        ensures apart { All (λ w. w.given ≢ client_enquiry_number) self.now.window.waiting }
        ensures settled { self.now.settled ≡ true
            → (self.now.held ≡ None) × HasNone 65536 self.now.wire.rest }
        ensures broken { has_broken worth self.now.events ≡ true → IsBad self.now.wire }
        ensures opened { self.now.stage ≡ Stage.Open
            → has_ended (L.polls self.now.wire.link) ≡ true
            → L.polls self.now.wire.link ≡ L.polls self.now.wire.start }
        ensures drained { self.now.stage ≡ Stage.Drained
            → has_ended (L.polls self.now.wire.link) ≡ true }
        ensures closed { self.now.stage ≡ Stage.Closed → self.now.session.state ≢ Ended
            → (self.now.settled ≡ true) × (has_ended (L.polls self.now.wire.link) ≡ true) }
    {
        self.wire.law();
        self.window.law();
    }

    /// The number of its client.
    pub fn client(&self) -> u64
        ensures { result ≡ self.now.port.client }
    {
        self.port.client()
    }

    /// Whether its client is bound, and how.
    pub fn state(&self) -> ClientState
        ensures { result ≡ self.now.session.state }
    {
        self.session.state()
    }

    /// The index of the account by which its client was bound.
    pub fn account(&self) -> Option<usize>
        ensures { result ≡ self.now.session.account }
    {
        self.session.account()
    }

    /// Whether the session has ended since no octet came after an enquiry.
    pub fn is_silent(&self) -> bool
        ensures { result ≡ self.now.session.silent }
    {
        self.session.is_silent()
    }

    /// How many octets wait to be written.
    pub fn unsent(&self) -> usize
        ensures { result ≡ length self.now.wire.unsent }
    {
        self.wire.unsent()
    }

    /// Exchanges the lists that it keeps for its next holds for these. Workers that one thread turns are lent the
    /// same ones, each for its turn: so they are few, and stay in the processor's cache.
    pub fn swap_lists(&mut self, lists: &mut SpareLists)
        ensures { self.new ≡ self.old }
    {
        mem::swap(&mut self.spares, lists);
    }

    /// Offers the link what waits, between two turns: so no turn is wanted for that alone. The next turn offers
    /// what the link doesn't take, and meets the fault of a link that has failed.
    pub fn offer_rest(&mut self) -> Result<(), LinkFault>
        ensures offered { L.offered self.new.wire.link
            ≡ L.offered self.old.wire.link ++ self.old.wire.unsent }
        ensures unread { L.polls self.new.wire.link ≡ L.polls self.old.wire.link }
        ensures failures { L.failures self.new.wire.link
            ≡ L.failures self.old.wire.link + fault_count result }
        ensures same { self.new ≡ record self.old {
          wire = record self.old.wire { link = self.new.wire.link; unsent = self.new.wire.unsent };
        } }
    {
        self.wire.offer()
    }
}
