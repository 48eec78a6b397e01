//! Which entries the check looks for.
ghost use Rattle.std.specs.Prelude.{◌≡◌};
ghost use Rattle.smx_legal.specs.Checks.{is_in};

use smx_history::{Entry, Kind};

/// Some of the entries of a list.
#[derive(Clone, Copy)]
pub enum Part {
    /// The admit of the client by that caller.
    AdmitBy {
        by: u64,
        client: u64,
    },
    /// The retire of the client.
    Retire {
        client: u64,
    },
    /// The accept of the request of that name.
    Accept {
        client: u64,
        ordinal: u64,
    },
    /// The accepts of the client with this ordinal or a greater one.
    AcceptFrom {
        client: u64,
        ordinal: u64,
    },
    /// The take of the request of that name.
    Take {
        client: u64,
        ordinal: u64,
    },
    /// The same under this number.
    TakeAs {
        client: u64,
        ordinal: u64,
        number: u32,
    },
    /// The answer, in time or late, to the request of that name, or its failure.
    Settling {
        client: u64,
        ordinal: u64,
    },
    /// All accepts.
    Accepts,
    /// The accepts of the client.
    AcceptsOf {
        client: u64,
    },
    /// The answers in time to the client, and the failures of its requests.
    AnswersOf {
        client: u64,
    },
    /// The collects of the client.
    CollectsOf {
        client: u64,
    },
    /// All takes.
    Takes,
    /// The takes under this number.
    TakesAs {
        number: u32,
    },
    /// The answers, in time or late, and the failures under this number.
    SettlingsAs {
        number: u32,
    },
}

impl Part {
    /// Whether the entry is one of them.
    pub fn has(self, entry: &Entry) -> bool
        ensures { result ≡ is_in self entry.now }
    {
        match self {
            Part::AdmitBy { by, client } => {
                matches!(entry.kind, Kind::Admit) && entry.client == client && entry.by == by
            }
            Part::Retire { client } => {
                matches!(entry.kind, Kind::Retire) && entry.client == client
            }
            Part::Accept { client, ordinal } => {
                matches!(entry.kind, Kind::Accept)
                    && entry.client == client
                    && entry.ordinal == ordinal
            }
            Part::AcceptFrom { client, ordinal } => {
                matches!(entry.kind, Kind::Accept)
                    && entry.client == client
                    && ordinal <= entry.ordinal
            }
            Part::Take { client, ordinal } => {
                matches!(entry.kind, Kind::Take)
                    && entry.client == client
                    && entry.ordinal == ordinal
            }
            Part::TakeAs {
                client,
                ordinal,
                number,
            } => {
                matches!(entry.kind, Kind::Take)
                    && entry.client == client
                    && entry.ordinal == ordinal
                    && entry.number == number
            }
            Part::Settling { client, ordinal } => {
                matches!(entry.kind, Kind::Answer | Kind::Late | Kind::Fail)
                    && entry.client == client
                    && entry.ordinal == ordinal
            }
            Part::Accepts => matches!(entry.kind, Kind::Accept),
            Part::AcceptsOf { client } => {
                matches!(entry.kind, Kind::Accept) && entry.client == client
            }
            Part::AnswersOf { client } => {
                matches!(entry.kind, Kind::Answer | Kind::Fail) && entry.client == client
            }
            Part::CollectsOf { client } => {
                matches!(entry.kind, Kind::Collect) && entry.client == client
            }
            Part::Takes => matches!(entry.kind, Kind::Take),
            Part::TakesAs { number } => {
                matches!(entry.kind, Kind::Take) && entry.number == number
            }
            Part::SettlingsAs { number } => {
                matches!(entry.kind, Kind::Answer | Kind::Late | Kind::Fail)
                    && entry.number == number
            }
        }
    }
}
