//! What becomes of a client's messages when it leaves.
ghost use Rattle.std.specs.Prelude.{◌≡◌, ◌+◌, ◌++◌, ◌<◌, [], ◌∷◌, length, None, true, false};
ghost use Rattle.smx_pdu.specs.Command.{response_of};
ghost use Rattle.smx_client.specs.Replies.{refused_up, PutSo, AnswersSo, ItemAnswersSo};
ghost use Rattle.smx_client.specs.Leaving.{Left, rest_of, gets, is_answered, FoundNothing, IsEmptied};
ghost use Rattle.smx_turns.specs.Puts.{finds_nothing};

use crate::reply::{Parked, Reply};
use smx_box::{Got, PutFault, Receiver, Sender, Spent};
use smx_link::Link;
use smx_pdu::status::ESME_RX_T_APPN;
use smx_pdu::{Pdu, response_id};
use smx_routes::MoWindow;
use smx_shared::Departed;
use smx_trace::Trace;
use smx_turns::{MoItem, put_at};
use std::alloc::Global;
use std::snapshot::Snapshot;
use std::sync::Wait;

/// What a client's worker leaves.
#[derive(Drop)]
pub struct Closed<L: Link + Drop> {
    /// Octets that it has not taken are let go.
    pub link: L,
    /// Its seats on the lanes, which it has left, as far as they aren't spent.
    pub departed: Departed,
    /// The box of the slot, for its next client.
    pub inbox: Receiver<MoItem>,
    pub senders: Vec<Sender<Pdu>>,
    /// Whether a return box took an answer to a message of this client.
    pub answered: bool,
    /// What was done with each of its messages, for contracts alone.
    pub closing: Trace<Leaving>,
}

/// What was done with messages that the client never answered; the last is what became of the
/// answer.
#[derive(Drop)]
pub enum Leaving {
    /// The answer that waited was put.
    Kept(Reply),
    /// A message that the client was sent, of this lane with the centre's number and command, was
    /// refused.
    Row(usize, u32, u32, Reply),
    /// The box was asked for an item, which was refused.
    Item(Snapshot<Result<Got<MoItem>, Spent>>, Reply),
}

// Puts an answer once, and drops it where it is refused.
fn put_once<R: Wait>(rt: &R, senders: &mut Vec<Sender<Pdu>>, lane: usize, answer: Pdu) -> Reply
    ensures { PutSo lane answer result senders.old.items senders.new.items }
{
    if lane >= senders.len() {
        return Reply::Nobody;
    }
    match put_at(rt, senders, lane, answer) {
        Ok(_) => Reply::Taken,
        Err((_, fault)) => match fault {
            PutFault::Full => Reply::Full,
            PutFault::Spent => Reply::Spent,
        },
    }
}

// Refuses a message once, where its command has a response.
fn refuse_once<R: Wait>(
    rt: &R,
    alloc: Global,
    senders: &mut Vec<Sender<Pdu>>,
    lane: usize,
    number: u32,
    command: u32,
) -> Reply
    ensures { AnswersSo lane (refused_up (response_of command) number) result
        senders.old.items senders.new.items }
{
    let Some(id) = response_id(command) else {
        return Reply::Nobody;
    };
    let answer = Pdu::header_only(alloc, id, ESME_RX_T_APPN, number);
    put_once(rt, senders, lane, answer)
}

// Refuses what the box gave, where it is an item.
fn refuse_got<R: Wait>(
    rt: &R,
    alloc: Global,
    senders: &mut Vec<Sender<Pdu>>,
    got: Result<Got<MoItem>, Spent>,
) -> Reply
    ensures { ItemAnswersSo got result senders.old.items senders.new.items }
{
    let Ok(Got::Item { content: item, .. }) = got else {
        return Reply::Nobody;
    };
    refuse_once(rt, alloc, senders, item.lane, item.number, item.pdu.command)
}

// Whether the box gave neither an item nor a mark.
fn is_nothing(got: &Result<Got<MoItem>, Spent>) -> bool
    ensures { result ≡ finds_nothing got.now }
{
    matches!(got, Ok(Got::Empty) | Err(_))
}

// The messages of a client that leaves.
#[derive(Drop)]
pub(crate) struct Leaver {
    alloc: Global,
    inbox: Receiver<MoItem>,
    senders: Vec<Sender<Pdu>>,
    window: MoWindow,
    parked: Option<Parked>,
    first_inbox: Snapshot<Receiver<MoItem>>,
    first_senders: Snapshot<Vec<Sender<Pdu>>>,
    first_window: Snapshot<MoWindow>,
    first_parked: Snapshot<Option<Parked>>,
    closing: Trace<Leaving>,
    // Whether a return box took an answer.
    answered: bool,
    ghost left_is: { Left
        (rest_of first_parked.value first_window.value first_inbox.value first_senders.value.items)
        closing
        (rest_of parked window inbox senders.items) },
    ghost answered_is: { answered ≡ is_answered closing },
}

impl Leaver {
    // A leaver that has answered nothing yet.
    pub(crate) fn new(
        alloc: Global,
        inbox: Receiver<MoItem>,
        senders: Vec<Sender<Pdu>>,
        window: MoWindow,
        parked: Option<Parked>,
    ) -> Leaver
        ensures first_parked { result.first_parked.value ≡ parked }
        ensures first_window { result.first_window.value ≡ window }
        ensures first_inbox { result.first_inbox.value ≡ inbox }
        ensures first_senders { result.first_senders.value ≡ senders }
        ensures inbox { result.inbox ≡ inbox }
        ensures none { result.closing ≡ [] }
    {
        let first_inbox = Snapshot::of(&inbox);
        let first_senders = Snapshot::of(&senders);
        let first_window = Snapshot::of(&window);
        let first_parked = Snapshot::of(&parked);
        Leaver {
            alloc,
            inbox,
            senders,
            window,
            parked,
            first_inbox,
            first_senders,
            first_window,
            first_parked,
            closing: Trace::new(),
            answered: false,
        }
    }

    // Puts the answer that waits.
    fn put_parked<R: Wait>(&mut self, rt: &R)
        ensures none { self.new.parked ≡ None }
        ensures gets { gets self.new.closing ≡ gets self.old.closing }
        ensures kept { (self.new.inbox ≡ self.old.inbox)
            × (self.new.first_parked ≡ self.old.first_parked)
            × (self.new.first_window ≡ self.old.first_window)
            × (self.new.first_inbox ≡ self.old.first_inbox)
            × (self.new.first_senders ≡ self.old.first_senders) }
    {
        let Some(Parked { lane, answer }) = self.parked.take() else {
            return;
        };
        let reply = put_once(rt, &mut self.senders, lane, answer);
        self.closing = self.closing.and(&Leaving::Kept(reply));
        self.answered |= reply.is_taken();
    }

    // Refuses the message that was sent under the least number. False where none waits.
    fn refuse_row<R: Wait>(&mut self, rt: &R) -> bool
        requires none { self.old.parked ≡ None }
        ensures parked { self.new.parked ≡ None }
        ensures more { result ≡ true
            → length self.new.window.waiting < length self.old.window.waiting }
        ensures last { result ≡ false → self.new.window.waiting ≡ [] }
        ensures gets { gets self.new.closing ≡ gets self.old.closing }
        ensures kept { (self.new.inbox ≡ self.old.inbox)
            × (self.new.first_parked ≡ self.old.first_parked)
            × (self.new.first_window ≡ self.old.first_window)
            × (self.new.first_inbox ≡ self.old.first_inbox)
            × (self.new.first_senders ≡ self.old.first_senders) }
    {
        let Some((lane, number, command)) = self.window.take_first() else {
            return false;
        };
        let reply = refuse_once(rt, self.alloc, &mut self.senders, lane, number, command);
        self.closing = self
            .closing
            .and(&Leaving::Row(lane, number, command, reply));
        self.answered |= reply.is_taken();
        true
    }

    // Asks the box for an item and refuses it. False where it gave nothing.
    fn refuse_item<R: Wait>(&mut self, rt: &R) -> bool
        requires none { self.old.parked ≡ None }
        requires rows { self.old.window.waiting ≡ [] }
        ensures parked { self.new.parked ≡ None }
        ensures gets { gets self.new.closing ≡ gets self.old.closing + 1 }
        ensures last { result ≡ false
            → (last : Leaving) × (self.new.closing ≡ self.old.closing ++ last ∷ [])
            × FoundNothing last }
        ensures sizes { self.new.inbox.front.queue ≡ self.old.inbox.front.queue }
        ensures kept { (self.new.window ≡ self.old.window)
            × (self.new.first_parked ≡ self.old.first_parked)
            × (self.new.first_window ≡ self.old.first_window)
            × (self.new.first_inbox ≡ self.old.first_inbox)
            × (self.new.first_senders ≡ self.old.first_senders) }
    {
        let got = self.inbox.get(rt);
        let found = Snapshot::of(&got);
        let nothing = is_nothing(&got);
        let reply = refuse_got(rt, self.alloc, &mut self.senders, got);
        self.closing = self.closing.and(&Leaving::Item(found, reply));
        self.answered |= reply.is_taken();
        !nothing
    }

    // Answers the messages: that whose answer waits, those that the client was sent, by rising
    // number, and those in its box, which it asks until it gives nothing, or as often as it has
    // places, since senders may go on. What a return box refuses is dropped.
    pub(crate) fn answer_all<R: Wait>(&mut self, rt: &R)
        requires none { self.old.closing ≡ [] }
        ensures over { (self.new.parked ≡ None) × (self.new.window.waiting ≡ []) }
        ensures emptied { IsEmptied self.old.inbox.front.queue.places self.new.closing }
        ensures first { (self.new.first_parked ≡ self.old.first_parked)
            × (self.new.first_window ≡ self.old.first_window)
            × (self.new.first_inbox ≡ self.old.first_inbox)
            × (self.new.first_senders ≡ self.old.first_senders) }
    {
        self.put_parked(rt);
        while self.refuse_row(rt) {}
        for _item in 0..self.inbox.places() {
            if !self.refuse_item(rt) {
                return;
            }
        }
    }

    // What is left.
    pub(crate) fn into_closed<L: Link + Drop>(self, link: L, departed: Departed) -> Closed<L>
        ensures link { result.link ≡ link }
        ensures departed { result.departed ≡ departed }
        ensures closing { result.closing ≡ self.closing }
        ensures left { Left
            (rest_of self.first_parked.value self.first_window.value self.first_inbox.value
            self.first_senders.value.items)
            result.closing
            (rest_of self.parked self.window result.inbox result.senders.items) }
        ensures answered { result.answered ≡ is_answered result.closing }
    {
        let Leaver {
            inbox,
            senders,
            closing,
            answered,
            ..
        } = self;
        Closed {
            link,
            departed,
            inbox,
            senders,
            answered,
            closing,
        }
    }
}
