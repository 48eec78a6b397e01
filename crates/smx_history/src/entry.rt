//! What a lane stores of each note.

/// The kind of an event.
#[derive(Clone, Copy, Debug, PartialEq, Eq)]
pub enum Kind {
    /// A client was admitted.
    Admit,
    /// A client's request was accepted into the queue.
    Accept,
    /// The oldest request was taken out of the queue, to be sent upstream.
    Take,
    /// A response to a taken request came, and was queued for its client.
    Answer,
    /// A response to a taken request came after its client had retired.
    Late,
    /// A client got its oldest response.
    Collect,
    /// A client retired.
    Retire,
    /// A taken request was given up, and its client is told so where it has not retired.
    Fail,
    /// The link upstream was lost.
    Down,
    /// There is a link upstream again.
    Up,
}

/// A note without bodies and statuses.
#[derive(Clone, Copy, Debug, PartialEq, Eq)]
pub struct Entry {
    pub kind: Kind,
    /// The number of the caller.
    pub by: u64,
    /// The number of the client, or 0 for `Down` and `Up`.
    pub client: u64,
    /// The request's ordinal among its client's, or 0 for `Admit`, `Retire`, `Down` and `Up`.
    pub ordinal: u64,
    /// The client's own number for `Accept`, the number upstream for `Take`, `Answer`, `Late` and `Fail`, else 0.
    pub number: u32,
    /// The request's command for `Accept`, the response's for `Answer` and `Late`, and for `Fail` that
    /// of the response which tells the client, else 0.
    pub command: u32,
}
