//! The words of a lane's refusals.
use crate::rows::says;
use smx_history::{AdmitFault, Refusal, TakeRefusal};
use std::test::*;

const KNOWN: &str = "the client's number is not above that of every client admitted so far";

const CLIENT_FULL: &str = "the client has as many requests as it may have";

#[test]
fn refusals_say_why(rt: HostRuntime) {
    let alloc = rt.alloc();
    assert!(rt; says(&rt, alloc, &AdmitFault::Known, KNOWN));
    assert!(rt; says(&rt, alloc, &Refusal::ClientFull, CLIENT_FULL));
    assert!(rt; says(&rt, alloc, &TakeRefusal::WindowFull, "the window is full"));
}
