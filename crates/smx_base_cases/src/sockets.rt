//! What stands between a link and the system: connections over memory, what waits to be
//! written, and headers that tell where a client came from.

mod connections;
mod headers;
mod memory;

use smx_socket::{MOST, Outgoing};
use std::test::*;

// What went comes in the order in which it was taken, also where there is no room for all at once.
#[test]
fn octets_go_in_order(rt: HostRuntime) {
    let mut out = Outgoing::new(rt.alloc()).expect(&rt, "out of memory");
    assert!(rt; out.accept(b"abc") == 3);
    out.let_go(2);
    assert!(rt; out.accept(b"de") == 2);
    assert!(rt; out.waiting() == b"cde".as_slice());
    out.let_go(3);
    assert!(rt; out.is_empty());
}

// At most 65,536 octets wait; once some have gone there is room again.
#[test]
fn room_comes_back(rt: HostRuntime) {
    let many = vec![in rt.alloc(); 7u8; 70_000].expect(&rt, "out of memory");
    let mut out = Outgoing::new(rt.alloc()).expect(&rt, "out of memory");
    assert!(rt; out.accept(many.as_slice()) == MOST);
    assert!(rt; out.accept(b"x") == 0);
    assert!(rt; out.waiting().len() >= 40_000);
    out.let_go(40_000);
    assert!(rt; out.accept(many.as_slice()) == 40_000);
}
