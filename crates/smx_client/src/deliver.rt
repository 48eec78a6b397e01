//! What becomes of an item from the box.
ghost use Rattle.std.specs.Prelude.{◌≡◌, ◌≢◌, ◌++◌, ◌<◌, ◌≤◌, [], ◌∷◌, ℕ, length, None, Ok, true};
ghost use Rattle.smx_client.specs.Replies.{put_in, parked_on};
ghost use Rattle.smx_client.specs.Events.{item_out, item_answers, message_as, got_told};
ghost use Rattle.smx_turns.specs.Puts.{finds_nothing};
ghost use Rattle.smx_client.specs.Parts.{item_step, IsDelivered, delivery_senders, delivery_parks};
ghost use Rattle.smx_client.specs.Sayings.{Spoke};
ghost use Rattle.smx_client.specs.Table.{IsPart, Clear, after_delivery, delivery_progress, is_given_at};

use crate::event::{Delivery, Progress};
use crate::reply::{Parked, refuse};
use crate::saying::{say_none, say_one};
use smx_box::{Got, Sender};
use smx_link::{Link, Wire};
use smx_pdu::Pdu;
use smx_routes::MoWindow;
use smx_turns::{Fault, Gate, MoItem};
use std::alloc::Global;
use std::sync::Wait;

// A message as the client is sent it.
fn message_as(item: MoItem, number: u32) -> Pdu
    ensures { result ≡ message_as number item }
{
    let MoItem { pdu, .. } = item;
    let Pdu { command, body, .. } = pdu;
    Pdu {
        command,
        status: 0,
        number,
        body,
    }
}

// Whether the box was empty.
pub(crate) fn is_empty(got: &Got<MoItem>) -> bool
    ensures { result ≡ finds_nothing (Ok got.now) }
{
    matches!(got, Got::Empty)
}

impl Delivery {
    // How far the turn comes by it: `None` where it goes on.
    pub(crate) fn progress(self) -> Result<Option<Progress>, Fault>
        ensures phase { IsPart Clear result (after_delivery self) }
        ensures which { result ≡ delivery_progress self }
    {
        match self {
            Delivery::Given(..) | Delivery::Dropped => Ok(None),
            Delivery::Refused(reply) => reply.progress(),
        }
    }
}

// Does with an item what is to be done with it.
pub(crate) fn deliver<L: Link + Drop, R: Wait, G: Gate>(
    rt: &R,
    gate: &mut G,
    alloc: Global,
    client: u64,
    window: &mut MoWindow,
    wire: &mut Wire<L>,
    senders: &mut Vec<Sender<Pdu>>,
    parked: &mut Option<Parked>,
    got: Got<MoItem>,
    now: u64,
) -> Delivery
    requires room { 65536 ≤ wire.old.room }
    requires none { parked.old ≡ None }
    requires free { length window.old.waiting ≢ window.old.places }
    ensures given { is_given_at now result ≡ true }
    ensures delivered { IsDelivered client (length senders.old.items) got result }
    ensures window { item_step got result window.old window.new }
    ensures says { Spoke wire.old wire.new (item_out got result) }
    ensures so { delivery_senders (Ok got) result senders.old.items senders.new.items }
    ensures parks { delivery_parks result parked.old parked.new }
    ensures answer { (k : ℕ) → k < length senders.old.items
        → put_in senders.new.items k ++ parked_on k parked.new
        ≡ put_in senders.old.items k ++ parked_on k parked.old ++ item_answers k got result }
    ensures told { G.told gate.new ≡ G.told gate.old ++ got_told (Ok got) result }
    ensures asked { G.asked gate.new ≡ G.asked gate.old }
{
    let Got::Item { content: item, .. } = got else {
        say_none(wire);
        return Delivery::Dropped;
    };
    if item.lane >= senders.len() {
        say_none(wire);
        return Delivery::Dropped;
    }
    if item.client != client {
        say_none(wire);
        let (lane, number, command) = (item.lane, item.number, item.pdu.command);
        let reply = refuse(rt, alloc, senders, parked, lane, number, command);
        reply.tell(gate, lane);
        return Delivery::Refused(reply);
    }
    let Ok(number) = window.give(item.lane, item.number, item.pdu.command, now) else {
        unreachable!()
    };
    say_one(wire, &message_as(item, number));
    Delivery::Given(number, now)
}
