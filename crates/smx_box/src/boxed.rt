//! A new box.
ghost use Rattle.std.specs.Prelude.{◌≡◌, ◌<◌, ◌≤◌, ◌↔◌, [], length, vec_len, vec_capacity, IsTrue, IfOk, IfErr};
ghost use Rattle.std.specs.Arc.{arc_value};
ghost use Rattle.crossbeam_queue.specs.Passes.{view, IsPassOf, ruled_capacity};
ghost use Rattle.smx_box.specs.Boxes.{AreSizes, OpensBox, StandFrom, IsBoxFault};
ghost use Rattle.smx_box.specs.Private.Rule.{first_known, told_known};
ghost use Rattle.smx_box.specs.Private.Ends.{pass_front};

use crate::end::End;
use crate::fault::BoxFault;
use crate::letter::{Known, Letter};
use crate::receiver::Receiver;
use crate::rule::{Made, Queue, Tell, Told};
use crate::sender::Sender;
use crossbeam_queue::Pass;
use std::alloc::{AllocError, Global};
use std::sync::{Arc, Wait};

// So many senders a box has at most: the most clients that a proxy serves.
const MOST_SENDERS: usize = 256;

// So many places a box has at most: 2 x 256 x 256. A lane's box of answers to messages has a place for
// each answer that can be owed to it: each of 256 clients has at most 256 messages in its box, and 256
// that it was sent and has not answered.
const MOST_PLACES: usize = 131_072;

/// Makes boxes of items from several senders to one receiver.
pub struct Boxed;

// Whether there are 1 to 256 senders, and 1 to 131,072 places.
fn are_sizes(senders: usize, places: usize) -> bool
    ensures { IsTrue result ↔ AreSizes senders places }
{
    (1..=MOST_SENDERS).contains(&senders) && (1..=MOST_PLACES).contains(&places)
}

// What a box keeps: its queue with the receiver's pass, and room for its senders.
struct Parts<T: Drop> {
    queue: Arc<Queue<T>, Global>,
    pass: Pass<Letter<T>, Known<T>>,
    all: Vec<Sender<T>>,
}

// Tells a new queue's rule how many places it has: a letter with that number goes in and out.
fn tell<T: Drop, R: Wait>(rt: &R, queue: &Queue<T>, pass: &mut Pass<Letter<T>, Known<T>>)
    requires pass { IsPassOf queue.now pass.old }
    requires places { 0 < ruled_capacity queue.now }
    requires first { view pass.old ≡ first_known }
    ensures pass { IsPassOf queue.now pass.new }
    ensures told { view pass.new ≡ told_known (ruled_capacity queue.now) }
{
    let letter = Letter {
        sender: 0,
        number: queue.capacity() as u64,
        content: None,
    };
    let _pushed = queue.push_as::<Tell, R>(rt, pass, letter);
    let _popped = queue.pop_as::<Told, R>(rt, pass);
}

// Takes all memory that a box takes.
fn reserve<T: Drop, R: Wait>(
    rt: &R,
    alloc: Global,
    senders: usize,
    places: usize,
) -> Result<Parts<T>, AllocError>
    requires { 0 < places }
    ensures places { IfOk result (λ p. ruled_capacity (arc_value p.queue) ≡ places) }
    ensures pass { IfOk result (λ p. IsPassOf (arc_value p.queue) p.pass) }
    ensures told { IfOk result (λ p. view p.pass ≡ told_known places) }
    ensures none { IfOk result (λ p. p.all.items ≡ []) }
    ensures room { IfOk result (λ p. (vec_len p.all ≡ 0) × (senders ≤ vec_capacity p.all)) }
{
    let all = Vec::with_capacity(alloc, senders)?;
    let (queue, mut pass) = Queue::ruled(alloc, places)?;
    tell(rt, &queue, &mut pass);
    Ok(Parts {
        queue: Arc::new(alloc, queue)?,
        pass,
        all,
    })
}

// Splits a pass for each sender. The receiver's is the queue's only one so far, so theirs are
// numbered from 1.
fn pass_all<T: Drop>(
    queue: &Arc<Queue<T>, Global>,
    pass: &mut Pass<Letter<T>, Known<T>>,
    senders: usize,
    room: Vec<Sender<T>>,
) -> Result<Vec<Sender<T>>, AllocError>
    requires pass { IsPassOf (arc_value queue.now) pass.old }
    requires alone { view pass.old ≡ told_known (ruled_capacity (arc_value queue.now)) }
    requires none { room.items ≡ [] }
    requires room { (vec_len room ≡ 0) × (senders ≤ vec_capacity room) }
    ensures table { pass.new.table_id ≡ pass.old.table_id }
    ensures pass { IsPassOf (arc_value queue.now) pass.new }
    ensures known { IfOk result (λ _. view pass.new
        ≡ record (told_known (ruled_capacity (arc_value queue.now))) { senders = senders }) }
    ensures count { IfOk result (λ all. length all.items ≡ senders) }
    ensures each { IfOk result (λ all. StandFrom 0
        (pass_front (ruled_capacity (arc_value queue.now)) pass.old).queue all.items) }
{
    let mut all = room;
    for sender in 0..senders {
        let theirs = queue.another::<Made>(pass);
        let owner = Arc::try_clone(queue)?;
        all.push_reserved(Sender::new(End::new(owner, theirs), sender));
    }
    Ok(all)
}

impl Boxed {
    /// A box of so many places, its receiver, and so many senders in the order of their indices.
    /// It takes memory for its places and its senders, once, and waits for nobody: 40 octets a place,
    /// and those of an item itself.
    pub fn new<T: Drop, R: Wait>(
        rt: &R,
        alloc: Global,
        senders: usize,
        places: usize,
    ) -> Result<(Receiver<T>, Vec<Sender<T>>), BoxFault>
        ensures ok { IfOk result (λ r. OpensBox senders places r.0 r.1.items) }
        ensures err { IfErr result (IsBoxFault senders places) }
    {
        if !are_sizes(senders, places) {
            return Err(BoxFault::BadSize);
        }
        let Ok(
            Parts {
                queue,
                mut pass,
                all,
            },
        ) = reserve(rt, alloc, senders, places)
        else {
            return Err(BoxFault::NoMemory);
        };
        let Ok(all) = pass_all(&queue, &mut pass, senders, all) else {
            return Err(BoxFault::NoMemory);
        };
        Ok((Receiver::new(End::new(queue, pass), senders), all))
    }
}
