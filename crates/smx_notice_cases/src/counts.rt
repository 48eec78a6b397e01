//! The words of lines that count.
use crate::words::{BUSY, STRANGER, TALLY, UPSTREAM, have_words, lost};
use smx_notice::{
    ClientStanding, LinkLoss, LinkState, Notice, ReloadNews, RunNews, Standing, Tally, UpstreamNews,
};
use std::test::Fail;

// Lines that tell of others.
fn counted() -> [(Notice<'static>, &'static str); 4] {
    let others = Tally {
        connected: 3,
        turned_away: 2,
        not_accepted: 1,
        ..Tally::none()
    };
    [
        (
            Notice::Run(RunNews::LeftOut(TALLY)),
            "in the last second 236 lines were left out: 120 bound, 16 refused, 100 gone",
        ),
        (
            Notice::Run(RunNews::LeftOut(others)),
            "in the last second 6 lines were left out: 3 connected, 2 turned away, 1 not accepted",
        ),
        (
            Notice::Run(RunNews::LeftOut(Tally {
                bound: 1,
                ..Tally::none()
            })),
            "in the last second 1 line was left out: 1 bound",
        ),
        (Notice::Run(RunNews::Unwritten(37)), "37 lines left out"),
    ]
}

// Lines of one of what others count.
fn singles() -> [(Notice<'static>, &'static str); 7] {
    let busy = ClientStanding {
        kind: None,
        time: 1,
        requests: 1,
        messages: 1,
        octets: 1,
        waits: false,
    };
    let mut idle = BUSY;
    idle.link = LinkState::Down { again: 0 };
    idle.history = 1;
    [
        (
            Notice::Run(RunNews::Draining(1)),
            "draining, 1 request under way",
        ),
        (Notice::Run(RunNews::Unwritten(1)), "1 line left out"),
        (
            Notice::Reload(ReloadNews::Reloaded(1)),
            "the configuration was read again, 1 account",
        ),
        (
            lost(LinkLoss::Unreached(None), 1, 1),
            "upstream 2 proxy at smsc.example:2775: can't be reached; 1 request failed; it is tried again in 1 ms",
        ),
        (
            Notice::Upstream(UPSTREAM, UpstreamNews::GivenUp { failed: 1 }),
            "upstream 2 proxy at smsc.example:2775: has no link for long, 1 queued request failed",
        ),
        (
            Notice::Status(Standing::Upstream(UPSTREAM, idle)),
            "status: upstream 2 proxy at smsc.example:2775: no link, its name is looked up, 3 queued, 10 under way, the oldest for 812 ms, 1 entry of history",
        ),
        (
            Notice::Status(Standing::Client(STRANGER, busy)),
            "status: client 7 at 10.0.0.9:44484: not bound, connected for 1 ms, 1 request under way, 1 message unanswered, 1 octet waits",
        ),
    ]
}

#[test]
fn counts_have_their_words(rt: HostRuntime) -> Result<(), Fail> {
    have_words(&rt, &counted())?;
    have_words(&rt, &singles())
}
