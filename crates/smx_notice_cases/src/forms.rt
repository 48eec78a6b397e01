//! The forms of lines.
use crate::words::{BUSY, CLIENT, STRANGER, TALLY, UNREADABLE, UPSTREAM, gone};
use smx_notice::{
    BindSaid, ClientEnd, ClientNews, Ended, Form, Level, Notice, ReloadNews, RunNews, Standing,
    spell,
};
use smx_session::Kind;
use std::process::Abort;
use std::test::Fail;

// 2026-11-27T11:40:00.123Z, counted by hand: 20,784 days behind 1970-01-01, and 42,000.123 seconds.
const MOMENT: u64 = 1_795_779_600_123;

// A notice in each form.
fn have_forms<R: Abort + AllocGlobal>(
    rt: &R,
    notice: Notice<'_>,
    lines: [&str; 3],
) -> Result<(), Fail> {
    for (form, line) in [Form::Text, Form::Json, Form::Journal]
        .into_iter()
        .zip(lines)
    {
        let spelled = spell(rt.alloc(), form, MOMENT, notice)?;
        assert_eq!(rt; spelled.as_str(), line);
    }
    Ok(())
}

// Octets that aren't printable break no line, whatever the form.
#[test]
fn lines_have_their_forms(rt: HostRuntime) -> Result<(), Fail> {
    let refused = ClientNews::BindRefused {
        status: 0x0F,
        said: BindSaid::Unknown(b"no\"body\n\xFF"),
    };
    have_forms(
        &rt,
        Notice::Client(STRANGER, refused),
        [
            "2026-11-27T11:40:00.123Z warn client 7 at 10.0.0.9:44484: bind as \"no\\\"body\\n\\xff\" refused, 0x0F ESME_RINVSYSID: no such account\n",
            "{\"time\":\"2026-11-27T11:40:00.123Z\",\"level\":\"warn\",\"event\":\"bind_refused\",\"party\":\"client 7\",\"address\":\"10.0.0.9:44484\",\"status\":\"0x0F ESME_RINVSYSID\",\"reason\":\"no such account \\\"no\\\\\\\"body\\\\n\\\\xff\\\"\",\"text\":\"client 7 at 10.0.0.9:44484: bind as \\\"no\\\\\\\"body\\\\n\\\\xff\\\" refused, 0x0F ESME_RINVSYSID: no such account\"}\n",
            "<4>client 7 at 10.0.0.9:44484: bind as \"no\\\"body\\n\\xff\" refused, 0x0F ESME_RINVSYSID: no such account\n",
        ],
    )?;
    let fault = Notice::Reload(ReloadNews::NotReloaded("a\nb\u{7f}\u{e9}\u{1f600}"));
    have_forms(
        &rt,
        fault,
        [
            "2026-11-27T11:40:00.123Z error nothing is changed: a\\u000ab\\u007f\\u00e9\\ud83d\\ude00\n",
            "{\"time\":\"2026-11-27T11:40:00.123Z\",\"level\":\"error\",\"event\":\"not_reloaded\",\"reason\":\"a\\nb\\u007f\\u00e9\\ud83d\\ude00\",\"text\":\"nothing is changed: a\\nb\\u007f\\u00e9\\ud83d\\ude00\"}\n",
            "<3>nothing is changed: a\\u000ab\\u007f\\u00e9\\ud83d\\ude00\n",
        ],
    )
}

// What JSON has of an upstream and a client, and of lines that were left out.
#[test]
fn objects_have_their_figures(rt: HostRuntime) -> Result<(), Fail> {
    let bound = Notice::Client(CLIENT, ClientNews::Bound(Kind::Trx));
    let lines = [
        (
            bound,
            "\"level\":\"info\",\"event\":\"client_bound\",\"party\":\"client 7\",\"account\":\"alpha\",\"address\":\"10.0.0.9:44484\",\"kind\":\"transceiver\",\"text\":\"client 7 alpha at 10.0.0.9:44484: bound as transceiver\"}\n",
        ),
        (
            Notice::Status(Standing::Upstream(UPSTREAM, BUSY)),
            "\"level\":\"info\",\"event\":\"status_upstream\",\"party\":\"upstream 2\",\"account\":\"proxy\",\"address\":\"smsc.example:2775\",\"link\":\"bound\",\"since_ms\":5021,\"at_socket\":\"some\",\"queued\":3,\"under_way\":10,\"history\":61,\"oldest_ms\":812,\"text\":\"status: upstream 2 proxy at smsc.example:2775: bound for 5021 ms, 3 queued, 10 under way, the oldest for 812 ms, 61 entries of history, octets wait\"}\n",
        ),
        (
            Notice::Run(RunNews::LeftOut(TALLY)),
            "\"level\":\"warn\",\"event\":\"left_out\",\"lines\":236,\"connected\":0,\"bound\":120,\"refused\":16,\"gone\":100,\"turned_away\":0,\"not_accepted\":0,\"text\":\"in the last second 236 lines were left out: 120 bound, 16 refused, 100 gone\"}\n",
        ),
        (
            Notice::Upstream(UPSTREAM, UNREADABLE),
            "\"level\":\"warn\",\"event\":\"upstream_lost\",\"party\":\"upstream 2\",\"account\":\"proxy\",\"address\":\"smsc.example:2775\",\"reason\":\"ended, it closed the connection\",\"failed\":2,\"last_command\":\"data_sm\",\"last_client\":12,\"again_ms\":1,\"text\":\"upstream 2 proxy at smsc.example:2775: ended, it closed the connection; the last request on it was data_sm of client 12; 2 requests failed; it is tried again in 1 ms\"}\n",
        ),
    ];
    for (notice, rest) in lines {
        let line = spell(rt.alloc(), Form::Json, MOMENT, notice)?;
        let begin = "{\"time\":\"2026-11-27T11:40:00.123Z\",";
        assert_eq!(rt; line.as_str().strip_prefix(begin), Some(rest));
    }
    Ok(())
}

// What was asked for is written in any case.
#[test]
fn lines_pass_by_their_level(rt: HostRuntime) -> Result<(), Fail> {
    let connected = Notice::Client(STRANGER, ClientNews::Connected);
    let late = gone(STRANGER, ClientEnd::Late);
    let ended = Notice::Run(RunNews::Ended(Ended::NoMemory));
    let status = Notice::Status(Standing::Requests(0));
    for (notice, passes) in [
        (connected, [true, false, false]),
        (late, [true, true, false]),
        (ended, [true, true, true]),
        (status, [true, true, true]),
    ] {
        let found = [Level::Info, Level::Warn, Level::Error].map(|least| notice.passes(least));
        assert_eq!(rt; found, passes);
    }
    Ok(())
}
