//! The words of lines, over values.
use smx_notice::{
    AccountChange, BindSaid, ClientEnd, ClientName, ClientNews, ClientStanding, Counts, DoorNews,
    Ended, LastSent, LinkLoss, LinkState, Notice, ReloadNews, RunNews, Service, Standing, Tally,
    TurnedAway, UpstreamName, UpstreamNews, UpstreamStanding,
};
use smx_session::Kind;
use smx_shared::EnterFault;
use smx_turns::Fault;
use std::io::{Error, ErrorKind};
use std::process::Abort;
use std::test::Fail;

// An upstream that is at a centre.
pub(crate) const UPSTREAM: UpstreamName<'static> = UpstreamName {
    lane: 2,
    system_id: "proxy",
    address: "smsc.example:2775",
};

// A client that is bound.
pub(crate) const CLIENT: ClientName<'static> = ClientName {
    client: 7,
    system_id: Some("alpha"),
    address: "10.0.0.9:44484",
};

// An upstream's line, where so many requests failed with its link.
pub(crate) fn lost(loss: LinkLoss, failed: usize, again: u64) -> Notice<'static> {
    let news = UpstreamNews::Lost {
        loss,
        last: None,
        failed,
        again,
    };
    Notice::Upstream(UPSTREAM, news)
}

// A link that was lost behind a data_sm (SMPP 3.4, section 5.1.2.1) of a client that is gone.
pub(crate) const UNREADABLE: UpstreamNews<'static> = UpstreamNews::Lost {
    loss: LinkLoss::Closed,
    last: Some(LastSent {
        command: 0x0000_0103,
        client: 12,
        system_id: None,
    }),
    failed: 2,
    again: 1,
};

// Lines of links to a centre that are hard to bring about, and the figures and names of others.
fn links() -> [(Notice<'static>, &'static str); 8] {
    [
        (
            lost(LinkLoss::Unreached(None), 0, 29_870),
            "upstream 2 proxy at smsc.example:2775: can't be reached; 0 requests failed; it is tried again in 29870 ms",
        ),
        (
            lost(LinkLoss::Refused(0x0D), 3, 1),
            "upstream 2 proxy at smsc.example:2775: bind refused with 0x0D ESME_RBINDFAIL; 3 requests failed; it is tried again in 1 ms",
        ),
        (
            lost(LinkLoss::Refused(0x0E), 0, 1),
            "upstream 2 proxy at smsc.example:2775: bind refused with 0x0E ESME_RINVPASWD: compare the password of upstream 2; 0 requests failed; it is tried again in 1 ms",
        ),
        (
            lost(LinkLoss::LaneDown, 0, 1),
            "upstream 2 proxy at smsc.example:2775: ended, its lane takes no requests; 0 requests failed; it is tried again in 1 ms",
        ),
        (
            lost(LinkLoss::Fault(Fault::NoMemory), 3, 1),
            "upstream 2 proxy at smsc.example:2775: ended, no memory; 3 requests failed; it is tried again in 1 ms",
        ),
        (
            Notice::Upstream(
                UPSTREAM,
                UpstreamNews::Unknown {
                    reason: "",
                    again: 30_000,
                },
            ),
            "upstream 2 proxy at smsc.example:2775: the name isn't known; it is looked up again in 30000 ms",
        ),
        (
            Notice::Upstream(UPSTREAM, UpstreamNews::GivenUp { failed: 3 }),
            "upstream 2 proxy at smsc.example:2775: has no link for long, 3 queued requests failed",
        ),
        (
            Notice::Upstream(UPSTREAM, UNREADABLE),
            "upstream 2 proxy at smsc.example:2775: ended, it closed the connection; the last request on it was data_sm of client 12; 2 requests failed; it is tried again in 1 ms",
        ),
    ]
}

// Lines that are hard to bring about, of connections and of the whole.
fn few() -> [(Notice<'static>, &'static str); 8] {
    [
        (
            Notice::Door(DoorNews::FewDescriptors {
                found: 59,
                wanted: 260,
                clients: 55,
            }),
            "the system gives 59 of 260 descriptors: at most 55 clients are let in; raise the limit of open files",
        ),
        (Notice::Run(RunNews::Ended(Ended::NoMemory)), "no memory"),
        (
            gone(CLIENT, ClientEnd::Fault(Fault::NoMemory)),
            "client 7 alpha at 10.0.0.9:44484: ended, no memory",
        ),
        (
            turned_away(TurnedAway::NotEntered(EnterFault::HistoryFull)),
            "10.0.0.9:44484: refused, the history is full",
        ),
        (
            turned_away(TurnedAway::Unwatched),
            "10.0.0.9:44484: refused, it can't be watched",
        ),
        (
            Notice::Door(DoorNews::NoDescriptor),
            "no connection can be accepted now",
        ),
        (Notice::Run(RunNews::Stopping), "stopping"),
        (Notice::Run(RunNews::Started("0.2.0")), "smx 0.2.0"),
    ]
}

// So many lines of each kind.
pub(crate) const TALLY: Tally = Tally {
    connected: 0,
    bound: 120,
    gone: 100,
    bind_refused: 16,
    turned_away: 0,
    not_accepted: 0,
};

// How the proxy and its clients end.
fn ends() -> [(Notice<'static>, &'static str); 8] {
    [
        (
            Notice::Run(RunNews::Draining(80)),
            "draining, 80 requests under way",
        ),
        (
            Notice::Run(RunNews::Drained {
                answered: 78,
                failed: 2,
            }),
            "drained: 78 answered, 2 with 0x45 ESME_RSUBMITFAIL",
        ),
        (
            gone(CLIENT, ClientEnd::Unbound),
            "client 7 alpha at 10.0.0.9:44484: unbound",
        ),
        (
            gone(CLIENT, ClientEnd::Stuck),
            "client 7 alpha at 10.0.0.9:44484: takes no octets",
        ),
        (
            Notice::Client(CLIENT, ClientNews::Unrouted),
            "client 7 alpha at 10.0.0.9:44484: no memory for its prefixes",
        ),
        (
            gone(STRANGER, ClientEnd::TurnedOut),
            "client 7 at 10.0.0.9:44484: hung up, three refused binds",
        ),
        (
            gone(STRANGER, ClientEnd::NoHeader),
            "client 7 at 10.0.0.9:44484: began with no header of the PROXY protocol",
        ),
        (
            gone(STRANGER, ClientEnd::Stopped),
            "client 7 at 10.0.0.9:44484: let go before its bind, as the proxy stops",
        ),
    ]
}

// What a service manager reads, as sd_notify(3) has it.
#[test]
fn lines_for_a_service_manager(rt: HostRuntime) -> Result<(), Fail> {
    let counts = Counts {
        bound: 1,
        upstreams: 2,
        clients: 7,
    };
    let lines = [
        (Service::Ready, "READY=1"),
        (
            Service::Awaiting("127.0.0.1:2775"),
            "STATUS=no connections can be awaited at 127.0.0.1:2775; it is tried again every 2 seconds",
        ),
        (
            Service::Counts(counts),
            "STATUS=1 of 2 upstreams bound, 7 clients",
        ),
        (Service::Alive, "WATCHDOG=1"),
        (Service::Reloading, "RELOADING=1"),
        (Service::Stopping, "STOPPING=1"),
    ];
    for (line, words) in lines {
        let told = format!(in rt.alloc(); "{line}")?;
        assert_eq!(rt; told.as_str(), words);
    }
    Ok(())
}

// A client that is gone.
pub(crate) fn gone(name: ClientName<'static>, end: ClientEnd) -> Notice<'static> {
    Notice::Client(name, ClientNews::Gone(end))
}

// A connection that was closed at once.
fn turned_away(reason: TurnedAway) -> Notice<'static> {
    Notice::Door(DoorNews::TurnedAway("10.0.0.9:44484", reason))
}

// A client that isn't bound.
pub(crate) const STRANGER: ClientName<'static> = ClientName {
    system_id: None,
    ..CLIENT
};

// A bind that can't be read and was refused with this status.
fn unreadable(status: u32) -> Notice<'static> {
    let said = BindSaid::Unreadable;
    Notice::Client(STRANGER, ClientNews::BindRefused { status, said })
}

// Lines of binds that were refused.
fn refusals() -> [(Notice<'static>, &'static str); 6] {
    [
        (
            unreadable(0x0F),
            "client 7 at 10.0.0.9:44484: bind refused, 0x0F ESME_RINVSYSID: its system_id has more than 15 octets",
        ),
        (
            unreadable(0x0E),
            "client 7 at 10.0.0.9:44484: bind refused, 0x0E ESME_RINVPASWD: its password has more than 8 octets",
        ),
        (
            unreadable(0x02),
            "client 7 at 10.0.0.9:44484: bind refused, 0x02 ESME_RINVCMDLEN: its body can't be read",
        ),
        (
            Notice::Client(
                STRANGER,
                ClientNews::BindRefused {
                    status: 0x0F,
                    said: BindSaid::Unknown(b"no\"body\n\xFF"),
                },
            ),
            "client 7 at 10.0.0.9:44484: bind as \"no\\\"body\\n\\xff\" refused, 0x0F ESME_RINVSYSID: no such account",
        ),
        (
            Notice::Client(
                CLIENT,
                ClientNews::BindRefused {
                    status: 0x0E,
                    said: BindSaid::Known,
                },
            ),
            "client 7 alpha at 10.0.0.9:44484: bind refused, 0x0E ESME_RINVPASWD",
        ),
        (
            Notice::Client(
                STRANGER,
                ClientNews::BindRefused {
                    status: 0x0F,
                    said: BindSaid::Unknown(b"a name that is longer than any"),
                },
            ),
            "client 7 at 10.0.0.9:44484: bind as \"a name that is l..\" refused, 0x0F ESME_RINVSYSID: no such account",
        ),
    ]
}

// Lines of a configuration that was read again.
fn renewals() -> [(Notice<'static>, &'static str); 9] {
    [
        (
            Notice::Client(CLIENT, ClientNews::Changed(AccountChange::Gone)),
            "client 7 alpha at 10.0.0.9:44484: its account is gone; it is unbound",
        ),
        (
            Notice::Client(CLIENT, ClientNews::Changed(AccountChange::Password)),
            "client 7 alpha at 10.0.0.9:44484: its password is another one now; it is unbound",
        ),
        (
            Notice::Client(CLIENT, ClientNews::Changed(AccountChange::Prefixes)),
            "client 7 alpha at 10.0.0.9:44484: its prefixes are others now",
        ),
        (
            Notice::Client(CLIENT, ClientNews::Changed(AccountChange::Rules)),
            "client 7 alpha at 10.0.0.9:44484: what it may send is another now, from its next bind on",
        ),
        (
            Notice::Client(CLIENT, ClientNews::Changed(AccountChange::Both)),
            "client 7 alpha at 10.0.0.9:44484: its prefixes are others now, and from its next bind on what it may send",
        ),
        (
            gone(STRANGER, ClientEnd::Renewed),
            "client 7 at 10.0.0.9:44484: let go before its bind, as the accounts changed",
        ),
        (
            Notice::Reload(ReloadNews::Reloaded(3)),
            "the configuration was read again, 3 accounts",
        ),
        (
            Notice::Reload(ReloadNews::NotReloaded("smx.toml: the text is not TOML")),
            "nothing is changed: smx.toml: the text is not TOML",
        ),
        (
            Notice::Reload(ReloadNews::NotTaken("[limits]")),
            "another [limits] in the file wants a restart",
        ),
    ]
}

// An upstream with requests.
pub(crate) const BUSY: UpstreamStanding = UpstreamStanding {
    link: LinkState::Bound {
        time: 5_021,
        waits: true,
    },
    queued: 3,
    under_way: 10,
    oldest: Some(812),
    history: 61,
};

// An upstream without any.
fn idle(link: LinkState) -> UpstreamStanding {
    UpstreamStanding {
        link,
        queued: 0,
        under_way: 0,
        oldest: None,
        history: 4,
    }
}

// Lines of how all stands.
fn standings() -> [(Standing<'static>, &'static str); 8] {
    let client = ClientStanding {
        kind: Some(Kind::Rx),
        time: 3_020,
        requests: 5,
        messages: 2,
        octets: 7,
        waits: true,
    };
    let stranger = ClientStanding {
        kind: None,
        requests: 0,
        messages: 0,
        octets: 0,
        waits: false,
        ..client
    };
    let slots = Standing::Slots {
        taken: 3,
        all: 8,
        closing: 1,
    };
    [
        (
            Standing::Upstream(UPSTREAM, BUSY),
            "status: upstream 2 proxy at smsc.example:2775: bound for 5021 ms, 3 queued, 10 under way, the oldest for 812 ms, 61 entries of history, octets wait",
        ),
        (
            Standing::Upstream(UPSTREAM, idle(LinkState::Binding { time: 20 })),
            "status: upstream 2 proxy at smsc.example:2775: connecting for 20 ms, 0 queued, 0 under way, 4 entries of history",
        ),
        (
            Standing::Upstream(UPSTREAM, idle(LinkState::Down { again: 1_074 })),
            "status: upstream 2 proxy at smsc.example:2775: no link, it is tried again in 1074 ms, 0 queued, 0 under way, 4 entries of history",
        ),
        (
            Standing::Upstream(UPSTREAM, idle(LinkState::Down { again: 0 })),
            "status: upstream 2 proxy at smsc.example:2775: no link, its name is looked up, 0 queued, 0 under way, 4 entries of history",
        ),
        (
            Standing::Client(CLIENT, client),
            "status: client 7 alpha at 10.0.0.9:44484: receiver, connected for 3020 ms, 5 requests under way, 2 messages unanswered, 7 octets wait behind those at its socket",
        ),
        (
            Standing::Client(STRANGER, stranger),
            "status: client 7 at 10.0.0.9:44484: not bound, connected for 3020 ms, 0 requests under way, 0 messages unanswered, 0 octets wait",
        ),
        (slots, "status: 3 of 8 slots are taken, 1 of them close"),
        (Standing::Requests(12), "status: 12 requests under way"),
    ]
}

// Each of these notices has its words.
pub(crate) fn have_words<R: Abort + AllocGlobal>(
    rt: &R,
    lines: &[(Notice<'static>, &'static str)],
) -> Result<(), Fail> {
    for (notice, line) in lines {
        let words = format!(in rt.alloc(); "{notice}")?;
        assert_eq!(rt; words.as_str(), *line);
    }
    Ok(())
}

#[test]
fn lines_have_their_words(rt: HostRuntime) -> Result<(), Fail> {
    have_words(&rt, &links())?;
    have_words(&rt, &few())?;
    have_words(&rt, &ends())?;
    have_words(&rt, &refusals())?;
    have_words(&rt, &renewals())?;
    for (standing, line) in standings() {
        let words = format!(in rt.alloc(); "{}", Notice::Status(standing))?;
        assert_eq!(rt; words.as_str(), line);
    }
    Ok(())
}

// Where the system says why, its words stand there.
#[test]
fn lines_have_the_system_s_reason(rt: HostRuntime) -> Result<(), Fail> {
    let error = Error::from(ErrorKind::AddrInUse);
    let notice = Notice::Door(DoorNews::NotListening("10.0.0.1:2775", error));
    let words = format!(in rt.alloc(); "{notice}")?;
    let line = format!(in rt.alloc();
        "listen = \"10.0.0.1:2775\": {error}; it is tried again every 2 seconds"
    )?;
    assert_eq!(rt; words.as_str(), line.as_str());
    let refused = Error::from(ErrorKind::ConnectionRefused);
    let words = format!(in rt.alloc(); "{}", lost(LinkLoss::Unreached(Some(refused)), 0, 1))?;
    let line = format!(in rt.alloc();
        "upstream 2 proxy at smsc.example:2775: can't be reached: {refused}; 0 requests failed; it is tried again in 1 ms"
    )?;
    assert_eq!(rt; words.as_str(), line.as_str());
    Ok(())
}

// EACCES of Linux, which a port below 1024 is answered with.
#[test]
fn a_port_below_1024(rt: HostRuntime) -> Result<(), Fail> {
    let error = Error::from_raw_os_error(13);
    let notice = Notice::Door(DoorNews::NotListening("127.0.0.1:80", error));
    let words = format!(in rt.alloc(); "{notice}")?;
    assert_eq!(rt;
        words.as_str(),
        "listen = \"127.0.0.1:80\": Permission denied (os error 13); a port below 1024 wants CAP_NET_BIND_SERVICE; it is tried again every 2 seconds"
    );
    Ok(())
}
