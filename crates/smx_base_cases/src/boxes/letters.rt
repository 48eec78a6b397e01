use self::Row::{Ended, Gets, GetsMark, GetsNothing, Puts, Shuts};
use crate::rows::check;
use smx_box::{BoxFault, Boxed, Got, PutFault, Receiver, Sender};
use std::alloc::Global;
use std::process::Abort;
use std::sync::Wait;
use std::test::*;
use std::thread;
use std::thread::join;

// How many items each of two threads puts.
const ITEMS: u64 = 1_000;

// A call of a box with what it answers.
#[derive(Clone, Copy)]
enum Row {
    // An item by the sender, of which it is this one: none where the box is full.
    Puts(usize, u64, Option<u64>),
    // An item by its sender and number.
    Gets(usize, u64, u64),
    GetsMark(usize),
    GetsNothing,
    // The last sender is shut, or the box is full.
    Shuts(bool),
    Ended(bool),
}

// Whether the item is put as the one with that number, or is handed back from a full box.
fn puts<R: Wait>(rt: &R, sender: &mut Sender<u64>, item: u64, wanted: Option<u64>) -> bool {
    match sender.put(rt, item) {
        Ok(number) => wanted == Some(number),
        Err((back, PutFault::Full)) => wanted.is_none() && back == item,
        Err(_) => false,
    }
}

// What is there next: an item's sender with its number and content, or the sender of a mark, or
// nothing. A number alone is that of a receiver that is spent.
fn got<R: Wait>(rt: &R, receiver: &mut Receiver<u64>) -> (Option<usize>, Option<(u64, u64)>) {
    match receiver.get(rt) {
        Ok(
            Got::Item {
                sender,
                number,
                content,
            },
        ) => (Some(sender), Some((number, content))),
        Ok(Got::Shut { sender }) => (Some(sender), None),
        Ok(Got::Empty) => (None, None),
        Err(_) => (None, Some((0, 0))),
    }
}

// Whether the last sender is shut. Where the box is full it stays.
fn is_shut<R: Wait>(rt: &R, senders: &mut Vec<Sender<u64>>) -> bool {
    let Some(last) = senders.pop() else {
        return false;
    };
    match last.shut(rt) {
        Ok(_) => true,
        Err((back, _)) => {
            senders.push_reserved(back);
            false
        }
    }
}

fn holds<R: Wait>(
    rt: &R,
    receiver: &mut Receiver<u64>,
    senders: &mut Vec<Sender<u64>>,
    row: Row,
) -> bool {
    match row {
        Puts(sender, item, wanted) => match senders.get_mut(sender) {
            Some(sender) => puts(rt, sender, item, wanted),
            None => false,
        },
        Gets(sender, number, item) => got(rt, receiver) == (Some(sender), Some((number, item))),
        GetsMark(sender) => got(rt, receiver) == (Some(sender), None),
        GetsNothing => got(rt, receiver) == (None, None),
        Shuts(wanted) => is_shut(rt, senders) == wanted,
        Ended(wanted) => receiver.ended() == wanted,
    }
}

// Of two places each sender takes one, and the first to be free goes to sender 0. The sender of 22
// is shut once that is out, and not before.
const SHARED: [Row; 15] = [
    Puts(0, 11, Some(1)),
    Puts(1, 22, Some(1)),
    Puts(0, 33, None),
    Gets(0, 1, 11),
    Puts(0, 33, Some(2)),
    Shuts(false),
    Gets(1, 1, 22),
    Shuts(true),
    Gets(0, 2, 33),
    GetsMark(1),
    Ended(false),
    Shuts(true),
    GetsMark(0),
    Ended(true),
    GetsNothing,
];

fn play<R: Wait + Abort>(rt: &R, receiver: &mut Receiver<u64>, senders: &mut Vec<Sender<u64>>) {
    for at in 0..SHARED.len() {
        let holds = holds(rt, receiver, senders, SHARED[at]);
        check(rt, holds, "shared", at);
    }
}

#[test]
fn two_senders_share_two_places(rt: HostRuntime) {
    let made = Boxed::new(&rt, rt.alloc(), 2, 2);
    let (mut receiver, mut senders) = made.expect(&rt, "no box");
    assert!(rt; receiver.places() == 2);
    play(&rt, &mut receiver, &mut senders);
}

// How a box of these sizes is refused.
fn refusal<R: Wait>(rt: &R, alloc: Global, senders: usize, places: usize) -> Option<BoxFault> {
    let made: Result<(Receiver<u64>, Vec<Sender<u64>>), BoxFault> = Boxed::new(
        rt, alloc, senders, places,
    );
    made.err()
}

// Counts of senders and of places that are no sizes.
const BAD_SIZES: [(usize, usize); 4] = [(0, 1), (257, 1), (1, 0), (1, 131_073)];

#[test]
fn sizes_out_of_range(rt: HostRuntime) {
    for at in 0..BAD_SIZES.len() {
        let (senders, places) = BAD_SIZES[at];
        let fault = refusal(&rt, rt.alloc(), senders, places);
        check(&rt, fault == Some(BoxFault::BadSize), "bad sizes", at);
    }
}

// The largest box. Want of memory is said by name: refuse-memory refuses each allocation in turn.
#[test]
fn refused_memory(rt: HostRuntime) {
    let fault = refusal(&rt, rt.alloc(), 256, 131_072);
    assert!(rt; fault.is_none() || fault == Some(BoxFault::NoMemory));
}

// Puts 1, 2, 3, .. up to the count of items, each again where the box was full.
fn put_items<R: Wait>(rt: &R, sender: &mut Sender<u64>) -> bool {
    let mut next = 1;
    for _ in rt.forever() {
        match sender.put(rt, next) {
            Ok(number) if number == next && next < ITEMS => next += 1,
            Ok(number) => return number == ITEMS,
            Err((back, PutFault::Full)) if back == next => thread::yield_now(),
            Err(_) => return false,
        }
    }
    false
}

// Puts the items, and shuts the sender, again where the box was full.
fn put_all<R: Wait>(rt: &R, from: Sender<u64>) -> bool {
    let mut sender = from;
    let are_put = put_items(rt, &mut sender);
    for _ in rt.forever() {
        match sender.shut(rt) {
            Ok(_) => return are_put,
            Err((back, PutFault::Full)) => sender = back,
            Err(_) => return false,
        }
        thread::yield_now();
    }
    false
}

// Gets what is there next: whether it is the sender's next item, or its mark behind the last of them.
fn gets_next<R: Wait>(rt: &R, receiver: &mut Receiver<u64>, next: &mut [u64; 2]) -> bool {
    match got(rt, receiver) {
        (Some(sender), Some((number, content))) if sender < 2 => {
            let is_next = number == next[sender] && content == number;
            next[sender] = next[sender].saturating_add(1);
            is_next
        }
        (Some(sender), None) if sender < 2 => next[sender] == ITEMS + 1,
        (None, None) => {
            thread::yield_now();
            true
        }
        _ => false,
    }
}

// Whether each of two senders sent all its items in order and nothing else, up to the end.
fn get_all<R: Wait>(rt: &R, receiver: &mut Receiver<u64>) -> bool {
    let mut next = [1, 1];
    for _ in rt.forever() {
        if !gets_next(rt, receiver, &mut next) {
            return false;
        }
        if receiver.ended() {
            return next == [ITEMS + 1, ITEMS + 1];
        }
    }
    false
}

#[test]
fn two_threads_put_and_one_gets(rt: HostRuntime) {
    let made = Boxed::new(&rt, rt.alloc(), 2, 4);
    let (mut receiver, mut senders) = made.expect(&rt, "no box");
    let one = senders.pop().expect(&rt, "no sender");
    let zero = senders.pop().expect(&rt, "no sender");
    let (got, put) = join(
        &rt,
        || get_all(&rt, &mut receiver),
        || join(&rt, || put_all(&rt, zero), || put_all(&rt, one)),
    );
    assert!(rt; got && put == (true, true));
}
