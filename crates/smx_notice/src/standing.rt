//! How the proxy stands, part by part.

use crate::client::{ClientName, ClientStanding};
use crate::count::requests;
use crate::facts::{Facts, Figures};
use crate::level::Level;
use crate::upstream::{UpstreamName, UpstreamStanding};
use thiserror::Error;

/// One part of how the proxy stands.
#[derive(Clone, Copy, Debug, Error)]
pub enum Standing<'a> {
    #[error("{0}: {1}")]
    Upstream(UpstreamName<'a>, UpstreamStanding),
    #[error("{0}: {1}")]
    Client(ClientName<'a>, ClientStanding),
    /// So many of all slots are taken, and so many of these by connections that close.
    #[error("{taken} of {all} slots are taken, {closing} of them close")]
    Slots {
        taken: usize,
        all: usize,
        closing: usize,
    },
    /// So many requests of all clients, gone ones included, are accepted and neither answered nor failed.
    #[error("{} under way", requests(*.0))]
    Requests(u64),
}

impl<'a> Standing<'a> {
    pub(crate) fn facts(self) -> Facts<'a> {
        match self {
            Standing::Upstream(name, standing) => name.standing(standing),
            Standing::Client(name, standing) => name.standing(standing),
            Standing::Slots {
                taken,
                all,
                closing,
            } => {
                let figures = Figures::none()
                    .size("taken", taken)
                    .size("all", all)
                    .size("closing", closing);
                Facts::new(Level::Info, "status_slots").counted(figures)
            }
            Standing::Requests(requests) => Facts::new(Level::Info, "status_requests").counted(
                Figures::none().number("under_way", requests),
            ),
        }
    }
}
