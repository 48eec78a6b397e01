//! A client's request, and the offer that it was made of.
ghost use Rattle.std.specs.Prelude.{◌≡◌};
ghost use Rattle.smx_shared.specs.Offers.{request_for};
ghost use Rattle.smx_shared.specs.Steps.{offer_of};

use crate::offer::Offer;
use smx_history::Request;

// The client's request of that ordinal.
pub(crate) fn named(client: u64, ordinal: u64, offer: Offer) -> Request
    ensures { result ≡ request_for client ordinal offer }
{
    let Offer { own, command, body } = offer;
    Request {
        client,
        ordinal,
        own,
        command,
        body,
    }
}

// The offer that a request was made of.
pub(crate) fn unnamed(request: Request) -> Offer
    ensures { result ≡ offer_of request }
{
    let Request {
        client: _,
        ordinal: _,
        own,
        command,
        body,
    } = request;
    Offer { own, command, body }
}
