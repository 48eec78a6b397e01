use self::Row::{Insert, Remove, To};
use crate::rows::check;
use smx_routes::{RouteFault, Routes};
use std::alloc::Global;
use std::process::Abort;
use std::test::*;

// A call of routes with what it answers.
#[derive(Clone, Copy)]
enum Row<'a> {
    // A prefix and a client.
    Insert(&'a [u8], u64, Result<(), RouteFault>),
    Remove(u64),
    // An address, and the client to whom it goes.
    To(&'a [u8], Option<u64>),
}

fn holds(rt: &impl Abort, routes: &mut Routes, row: Row) -> bool {
    match row {
        Insert(prefix, client, wanted) => {
            let found = routes.insert(prefix, client);
            assert!(rt; found != Err(RouteFault::NoMemory), "out of memory");
            found == wanted
        }
        Remove(client) => {
            routes.remove(client);
            true
        }
        To(address, wanted) => routes.route(address) == wanted,
    }
}

// Plays the rows on new routes.
fn play(rt: &impl Abort, alloc: Global, rows: &[Row]) {
    let mut routes = Routes::new(alloc);
    for at in 0..rows.len() {
        check(rt, holds(rt, &mut routes, rows[at]), "routes", at);
    }
}

// The longest prefix counts, and of two clients that have it the one with the least number. A row of
// the empty prefix takes the rest.
const LONGEST_PREFIX: [Row; 14] = [
    Insert(b"49", 1, Ok(())),
    Insert(b"491", 3, Ok(())),
    Insert(b"491", 2, Ok(())),
    To(b"4915", Some(2)),
    To(b"491", Some(2)),
    To(b"49", Some(1)),
    To(b"4", None),
    To(b"5", None),
    To(b"", None),
    Insert(b"", 4, Ok(())),
    To(b"5", Some(4)),
    To(b"", Some(4)),
    To(b"4", Some(4)),
    To(b"4915", Some(2)),
];

// Clients leave with all their rows.
const LEAVING: [Row; 10] = [
    Insert(b"", 1, Ok(())),
    Insert(b"49", 1, Ok(())),
    Insert(b"49", 2, Ok(())),
    Insert(b"4", 2, Ok(())),
    To(b"4915", Some(1)),
    Remove(1),
    To(b"4915", Some(2)),
    To(b"5", None),
    Remove(2),
    To(b"4915", None),
];

// A prefix has at most 64 octets, and one that a client has it can't have again.
#[test]
fn messages_go_to_the_longest_prefix(rt: HostRuntime) {
    let address = [b'7'; 70];
    let refused = [
        Insert(&address[..65], 1, Err(RouteFault::TooLong)),
        To(&address, None),
        Insert(&address[..64], 1, Ok(())),
        Insert(&address[..64], 1, Err(RouteFault::Known)),
        Insert(&address[..64], 2, Ok(())),
        To(&address, Some(1)),
        To(&address[..63], None),
    ];
    play(&rt, rt.alloc(), &LONGEST_PREFIX);
    play(&rt, rt.alloc(), &LEAVING);
    play(&rt, rt.alloc(), &refused);
}

fn inserts_or_says(routes: &mut Routes) -> bool {
    match routes.insert(b"49", 1) {
        Ok(()) => routes.route(b"4915") == Some(1),
        Err(fault) => fault == RouteFault::NoMemory && routes.route(b"4915").is_none(),
    }
}

// Want of memory is said by name, and leaves the rows as they were: refuse-memory refuses each
// allocation in turn.
#[test]
fn refused_memory(rt: HostRuntime) {
    let mut routes = Routes::new(rt.alloc());
    assert!(rt; inserts_or_says(&mut routes));
}
