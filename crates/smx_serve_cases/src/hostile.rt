//! Hostile peers of a proxy over loopback. Beside each stands an honest client that was bound before, and
//! has each of its requests answered once.
pub(crate) mod caller;
mod centre;
mod crowd;
mod greedy;
mod honest;
mod playing;
mod running;
mod system;

use running::run;
use std::test::Fail;
use system::peak;

// What is tried.
#[derive(Clone, Copy, PartialEq, Eq)]
enum Trial {
    // Beside a good centre a client that never reads.
    Unread,
    // Beside a good centre clients that bind, send, connect and close what they should not.
    Clients,
    // A centre that says over its first connection that the proxy is bound, and reads nothing.
    Deaf,
    // A centre that answers each request with what was never asked, with other commands, and more than
    // once.
    Lying,
    // A centre that answers the first request over each of its first connections with a length below 16.
    Short,
}

// How much more memory the process may have while a client would send 131 MB and never reads, in
// units of 1,024 octets.
const MORE: u64 = 65_536;

// The test is a process of its own, so that nothing else takes its memory.
#[test]
fn a_client_that_never_reads_costs_no_memory(rt: HostRuntime) -> Result<(), Fail> {
    let before = peak(&rt, rt.alloc());
    run(rt, rt.alloc(), Trial::Unread)?;
    let more = peak(&rt, rt.alloc()).saturating_sub(before);
    assert!(rt;
        more <= MORE,
        "beside a client that never reads the process has {more} KB more"
    );
    Ok(())
}

// Each account at once, the longest PDUs and one that is longer, random octets, all slots and one more,
// and connections that are closed beside an octet a second.
#[test]
fn clients_of_bad_manners(rt: HostRuntime) -> Result<(), Fail> {
    run(rt, rt.alloc(), Trial::Clients)
}

#[test]
fn a_centre_that_never_reads(rt: HostRuntime) -> Result<(), Fail> {
    run(rt, rt.alloc(), Trial::Deaf)
}

#[test]
fn a_centre_that_answers_what_was_never_asked(rt: HostRuntime) -> Result<(), Fail> {
    run(rt, rt.alloc(), Trial::Lying)
}

#[test]
fn a_centre_with_lengths_below_16(rt: HostRuntime) -> Result<(), Fail> {
    run(rt, rt.alloc(), Trial::Short)
}
