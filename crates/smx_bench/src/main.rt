//! Benchmarks: `smx_bench WORD` measures one part and prints its figures. They depend on the
//! machine and on what else runs, so no test compares them.
#![tactic(auto)]

mod boxes;
mod figures;
mod frame;
mod lane;
mod lock;
mod script;
mod seats;
mod shared;
mod shifts;
mod worker;

use std::rt::Clock;
use std::sync::Wait;
use std::thread::Threads;
use std::{env, io};

const USAGE: &str = "usage: smx_bench WORD [NAME]

lock    the ticket lock, alone and among threads, beside the toolchain's Mutex
box     letters from 1, 2, 16 and 256 senders in threads of their own to one receiver
lane    rounds of accept, take, answer and collect on one lane
frame   PDUs from a stream in pieces of four sizes
shared  requests of several ports over shared lanes, with a tap for each lane
worker  requests through a client's worker and one towards the centre, and turns that do nothing
script  scripts of the relay, of a kind of lines each, whose name begins with NAME
";

fn main(rt: HostRuntime) -> anyhow::Result<()> {
    let mut words = env::args(&rt)?.skip(1);
    let (word, name) = (words.next(), words.next());
    Ok(measure(&rt, word.as_deref(), name.as_deref().unwrap_or(""))?)
}

fn measure<R: Threads + Wait + Sync + Print + Clock + AllocGlobal>(
    rt: &R,
    word: Option<&str>,
    name: &str,
) -> io::Result<()> {
    match word {
        Some("lock") => lock::run(rt),
        Some("box") => boxes::run(rt),
        Some("lane") => lane::run(rt),
        Some("frame") => frame::run(rt),
        Some("shared") => shared::run(rt),
        Some("worker") => worker::run(rt, rt.alloc()),
        Some("script") => script::run(rt, name),
        _ => print!(rt; "{USAGE}"),
    }
}
