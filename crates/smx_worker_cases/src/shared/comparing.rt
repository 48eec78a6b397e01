//! Tokens that are compared.
ghost use Rattle.std.specs.Prelude.{◌≡◌, ◌<◌, length, slice_get, Some};
ghost use Rattle.smx_shared.specs.Views.{locks_of};

use super::*;
use crate::hall::{is_of, last_tap};
use smx_history::Kind;
use smx_pdu::command::SUBMIT_SM;
use smx_shared::{Offer, Port, Tap};
use std::test::*;

// Compares each two of a door, a port and a tap.
fn compare_all(at: &Exchange, door: &mut Door, port: &mut Port, tap: &mut Tap)
    requires lanes { 0 < length at.now }
    requires door { locks_of door.old.fronts ≡ at.now }
    requires port { locks_of port.old.fronts ≡ at.now }
    requires tap { (tap.old.lane ≡ 0) × (slice_get at.now tap.old.lane ≡ Some tap.old.front.lock) }
    ensures door { door.new ≡ door.old }
    ensures port { port.new ≡ port.old }
    ensures tap { tap.new ≡ tap.old }
{
    at.compare(door, port, 0);
    at.compare(port, tap, 0);
    at.compare(tap, door, 0);
    at.compare(port, door, 0);
}

// A request is submitted, the tokens are compared, and it is taken.
fn go_on<R: Wait>(
    rt: &R,
    at: &Exchange,
    door: &mut Door,
    port: &mut Port,
    tap: &mut Tap,
    offer: Offer,
) -> bool
    requires lanes { 0 < length at.now }
    requires door { locks_of door.old.fronts ≡ at.now }
    requires port { locks_of port.old.fronts ≡ at.now }
    requires tap { (tap.old.lane ≡ 0) × (slice_get at.now tap.old.lane ≡ Some tap.old.front.lock) }
    ensures door { locks_of door.new.fronts ≡ at.now }
    ensures port { locks_of port.new.fronts ≡ at.now }
{
    let submitted = port.submit(at, rt, offer).is_ok();
    compare_all(at, door, port, tap);
    submitted && tap.take(at, rt, 0).is_ok()
}

// Between the tokens' calls a second client enters. The first leaves.
fn compared<R: Wait + Abort>(
    rt: &R,
    alloc: Global,
    at: &Exchange,
    door: &mut Door,
    tap: &mut Tap,
) -> bool
    requires lanes { 0 < length at.now }
    requires door { locks_of door.old.fronts ≡ at.now }
    requires tap { (tap.old.lane ≡ 0) × (slice_get at.now tap.old.lane ≡ Some tap.old.front.lock) }
    ensures { locks_of door.new.fronts ≡ at.now }
{
    let mut port = door.enter(at, rt).ok().expect(rt, "out of memory");
    let offer = Offer {
        own: 7,
        command: SUBMIT_SM,
        body: Body::empty(alloc),
    };
    let taken = go_on(rt, at, door, &mut port, tap, offer);
    enter(rt, at, door).expect(rt, "no second client");
    taken && port.leave(at, rt).is_ok()
}

// Tokens that were compared go on as before.
#[test]
fn tokens_are_compared(rt: HostRuntime) {
    let Hall {
        exchange,
        mut door,
        mut taps,
    } = Hall::roomy(&rt, rt.alloc(), 1);
    let mut tap = last_tap(&exchange, &mut taps).expect(&rt, "there is one lane");
    assert!(rt; tap.lane() == 0);
    assert!(rt; compared(&rt, rt.alloc(), &exchange, &mut door, &mut tap));
    let lanes = lanes_of(&rt, exchange, door);
    let kinds = [
        Kind::Admit,
        Kind::Accept,
        Kind::Take,
        Kind::Admit,
        Kind::Retire,
    ];
    assert!(rt; is_of(&lanes, &kinds));
}
