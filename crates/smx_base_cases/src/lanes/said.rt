//! What a reply says, in a word and numbers.

use smx_lane::{
    AdmitFault, Answered, FailRefusal, Failed, Refusal, Reply, Sent, TakeRefusal, UpRefusal,
};
use smx_pdu::{Body, Pdu};

/// A word, and the numbers that go with it, or 0.
pub(crate) type Said = (&'static str, [u64; 6]);

pub(crate) fn word(word: &'static str) -> Said {
    (word, [0; 6])
}

pub(crate) fn word_of(word: &'static str, number: u64) -> Said {
    (word, [number, 0, 0, 0, 0, 0])
}

/// The one octet that tells the requests and responses with the ordinal from others.
pub(crate) fn octet(ordinal: u64) -> u8 {
    (ordinal % 251) as u8
}

/// What is said of a body with the ordinal's octet: one more than the octet, since of none 0 is said.
pub(crate) fn mark(ordinal: u64) -> u64 {
    u64::from(octet(ordinal)).saturating_add(1)
}

fn mark_in(body: &Body) -> u64 {
    match body.as_slice().first() {
        Some(octet) if body.len() == 1 => u64::from(*octet).saturating_add(1),
        Some(_) => 1_000,
        None => 0,
    }
}

fn admitted(reply: &Result<(), AdmitFault>) -> &'static str {
    match reply {
        Ok(()) => "admitted",
        Err(AdmitFault::Known) => "known",
        Err(AdmitFault::HistoryFull) => "history full",
        Err(AdmitFault::NoMemory) => "no memory",
    }
}

fn refused(refusal: Refusal) -> &'static str {
    match refusal {
        Refusal::NotAdmitted => "not admitted",
        Refusal::ClientFull => "client full",
        Refusal::QueueFull => "queue full",
        Refusal::HistoryFull => "history full",
        Refusal::Down => "is down",
    }
}

fn taken(reply: &Result<Sent, TakeRefusal>) -> Said {
    match reply {
        Ok(sent) => {
            let Sent { request, upstream } = sent;
            let (own, command) = (u64::from(request.own), u64::from(request.command));
            let (upstream, mark) = (u64::from(*upstream), mark_in(&request.body));
            let numbers = [
                upstream,
                request.client,
                request.ordinal,
                own,
                command,
                mark,
            ];
            ("taken", numbers)
        }
        Err(TakeRefusal::QueueEmpty) => word("queue empty"),
        Err(TakeRefusal::WindowFull) => word("window full"),
        Err(TakeRefusal::Down) => word("is down"),
    }
}

fn answered(reply: &Answered) -> Said {
    match reply {
        Answered::Queued { client } => word_of("queued", *client),
        Answered::Late { .. } => word("late"),
        Answered::Unknown(pdu) => {
            let number = u64::from(pdu.number);
            ("unknown", [number, mark_in(&pdu.body), 0, 0, 0, 0])
        }
    }
}

// The status is told of what has no body, as that which tells of a failure.
fn collected(pdu: &Pdu) -> Said {
    let status = if pdu.body.is_empty() { pdu.status } else { 0 };
    let (number, command) = (u64::from(pdu.number), u64::from(pdu.command));
    let numbers = [number, command, u64::from(status), mark_in(&pdu.body), 0, 0];
    ("collected", numbers)
}

fn failed(failed: Failed) -> Said {
    match failed {
        Failed::Queued { client } => word_of("failed", client),
        Failed::Late { .. } => word("late"),
    }
}

fn came_up(reply: &Result<(), UpRefusal>) -> &'static str {
    match reply {
        Ok(()) => "up",
        Err(UpRefusal::AlreadyUp) => "is up",
        Err(UpRefusal::WindowNotEmpty) => "window not empty",
        Err(UpRefusal::HistoryFull) => "history full",
    }
}

pub(crate) fn said(reply: &Reply) -> Said {
    match reply {
        Reply::Admitted(reply) => word(admitted(reply)),
        Reply::Accepted(Ok(())) => word("accepted"),
        Reply::Accepted(Err((back, refusal))) => word_of(refused(*refusal), mark_in(&back.body)),
        Reply::Taken(reply) => taken(reply),
        Reply::Answered(reply) => answered(reply),
        Reply::Collected(Some(pdu)) => collected(pdu),
        Reply::Collected(None) => word("nothing"),
        Reply::Retired(Ok(())) => word("retired"),
        Reply::Retired(Err(_)) => word("not admitted"),
        Reply::TurnedOver(Ok(Some(list))) => word_of("turned over", list.len() as u64),
        Reply::TurnedOver(Ok(None)) => word("too few"),
        Reply::TurnedOver(Err(_)) => word("no memory"),
        Reply::WentDown(Ok(())) => word("down"),
        Reply::WentDown(Err(_)) => word("is down"),
        Reply::Failed(Ok(reply)) | Reply::Expired(Ok(reply)) => failed(*reply),
        Reply::Failed(Err(FailRefusal::Up)) => word("is up"),
        Reply::Failed(Err(FailRefusal::WindowEmpty)) => word("window empty"),
        Reply::Expired(Err(_)) => word("none so old"),
        Reply::CameUp(reply) => word(came_up(reply)),
        Reply::Unkept => word("unkept"),
    }
}
