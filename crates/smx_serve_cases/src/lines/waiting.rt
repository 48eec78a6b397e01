//! Lines that nobody reads for a while.
use super::told::Lines;
use smx_serve::{Notice, RunNews, Server};
use std::test::Fail;

// How many lines are said while nobody reads them.
const SAID: u64 = 5_000;

// Of 5,000 lines that are said before anybody reads them 4,096 are written, and then how many others
// there were.
#[test]
fn lines_that_nobody_reads(rt: HostRuntime) -> Result<(), Fail> {
    let server = Server::new(&rt, rt.alloc()).expect(&rt, "no server");
    let log = server.log().expect(&rt, "out of memory");
    for _ in 0..SAID {
        log.tell(&rt, 0, Notice::Run(RunNews::Stopping));
    }
    let mut lines = Lines::of(rt, server.log().expect(&rt, "out of memory"))?;
    log.finish(&rt);
    for _ in 0..4_096 {
        lines.says(&rt, "stopping");
    }
    lines.says(&rt, "904 lines left out");
    lines.are_over(&rt);
    Ok(())
}
