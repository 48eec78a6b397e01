//! The request that a worker's link was given last.
ghost use Rattle.std.specs.Prelude.{◌≡◌};
ghost use Rattle.smx_upstream.specs.Last.{last_request, last_taken};

use crate::worker::UpstreamWorker;
use smx_link::Link;
use smx_lock::Spent;
use smx_shared::Takings;

/// A request that went upstream: whose it was, and its command.
#[derive(Clone, Copy, Debug, PartialEq, Eq)]
pub struct LastRequest {
    pub client: u64,
    pub command: u32,
}

// The last request, once the lane gave this.
pub(crate) fn last_taken(
    taken: &Result<Takings, Spent>,
    last: Option<LastRequest>,
) -> Option<LastRequest>
    ensures { result ≡ last_taken taken.now last }
{
    match taken {
        Ok(Takings { requests, .. }) => match requests.last() {
            Some(sent) => Some(LastRequest {
                client: sent.request.client,
                command: sent.request.command,
            }),
            None => last,
        },
        Err(_) => last,
    }
}

impl<L: Link + Drop> UpstreamWorker<L> {
    /// The request that was taken last and so sent over this link, where there was one: where the
    /// link is lost then, it may be what brought that about.
    pub fn last_request(&self) -> Option<LastRequest>
        ensures { result ≡ last_request self.now.events }
    {
        self.last
    }
}
