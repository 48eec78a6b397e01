//! Responses on their way to the clients.
ghost use Rattle.std.specs.Prelude.{◌≡◌, [], ◌∷◌, IfSome, IfNone, Some, None};
ghost use Rattle.std.specs.List.{find};
ghost use Rattle.std.specs.Option.{option_copied};
ghost use Rattle.smx_lane.specs.Calls.{GoesOn};
ghost use Rattle.smx_lane.specs.Conditions.{IsOwn};
ghost use Rattle.smx_history.specs.Answering.{IsAnswered, IsCollected, oldest_in};
ghost use Rattle.smx_history.specs.History.{note};
ghost use Rattle.smx_history.specs.Replies.{answers_place, member_with};
ghost use Rattle.smx_history.specs.declared.place.Place.{Place};
ghost use Rattle.smx_history.specs.declared.note.Event.TheVariants.{Collect};
ghost use Rattle.smx_history.proofs.Updates.{response_for};

use super::Lane;
use crate::settled::Settled;
use smx_history::{Answered, Entry, Kind, Place, Response};
use smx_pdu::Pdu;

// The entry of a response to the place.
pub(super) fn settling(kind: Kind, by: u64, place: &Place, response: &Pdu) -> Entry
    ensures { result
        ≡ record {
          kind = kind;
          by = by;
          client = place.now.client;
          ordinal = place.now.ordinal;
          number = response.now.number;
          command = response.now.command;
        } }
{
    Entry {
        kind,
        by,
        client: place.client,
        ordinal: place.ordinal,
        number: response.number,
        command: response.command,
    }
}

// A response as the client of the place sees it.
pub(super) fn facing(place: &Place, response: Pdu) -> Response
    ensures { result ≡ response_for place.now response }
{
    let Pdu {
        command,
        status,
        number: _,
        body,
    } = response;
    Response {
        ordinal: place.ordinal,
        pdu: Pdu {
            command,
            status,
            number: place.own,
            body,
        },
    }
}

impl Lane {
    /// Settles the place that a response answers, and puts the response into its client's box. The ordinal is that of
    /// the request.
    #[inline(always)]
    pub fn answer_response(&mut self, by: u64, response: Pdu) -> Settled
        ensures answered { IsAnswered self.old by response result.answered self.new }
        ensures ordinal { (q : Place) → find (answers_place response) self.old.window ≡ Some q
            → q.ordinal ≡ result.ordinal }
        ensures none { find (answers_place response) self.old.window ≡ None → result.ordinal ≡ 0 }
        ensures limits { self.new.limits ≡ self.old.limits }
    {
        let Some(place) = self.window.find(response.number, response.command) else {
            return Settled {
                answered: Answered::Unknown(response),
                ordinal: 0,
            };
        };
        self.window.remove(response.number);
        let Place {
            client,
            ordinal,
            ..
        } = place;
        let entry = settling(Kind::Answer, by, &place, &response);
        if !self.roster.put(client, facing(&place, response)) {
            self.entries.push_reserved(Entry {
                kind: Kind::Late,
                ..entry
            });
            return Settled {
                answered: Answered::Late { client },
                ordinal,
            };
        }
        self.entries.push_reserved(entry);
        Settled {
            answered: Answered::Queued { client },
            ordinal,
        }
    }

    /// Settles the place that a response answers, and puts the response into its client's box.
    #[inline(always)]
    pub fn answer(&mut self, by: u64, response: Pdu) -> Answered
        ensures answered { IsAnswered self.old by response result self.new }
        ensures limits { self.new.limits ≡ self.old.limits }
    {
        self.answer_response(by, response).answered
    }

    /// The client's oldest response, as it is to see it, where one waits.
    pub fn next_response(&self, client: u64) -> Option<&Response>
        ensures { option_copied result ≡ oldest_in (member_with client self.now.members) }
    {
        self.roster.oldest(client)
    }

    /// Takes the client's oldest response out of its box, with the ordinal of its request. Its PDU bears the client's
    /// own number.
    #[inline(always)]
    pub fn collect_response(&mut self, by: u64, client: u64) -> Option<Response>
        requires { IsOwn self.old by client }
        ensures oldest { result ≡ oldest_in (member_with client self.old.members) }
        ensures agrees { IfSome result (λ r. GoesOn self.old (note by (Collect client r.ordinal) ∷ [])
            self.new) }
        ensures none { IfNone result (self.new ≡ self.old) }
        ensures own { IsOwn self.new by client }
        ensures limits { self.new.limits ≡ self.old.limits }
    {
        let response = self.roster.get(client)?;
        self.entries.push_reserved(Entry {
            kind: Kind::Collect,
            by,
            client,
            ordinal: response.ordinal,
            number: 0,
            command: 0,
        });
        Some(response)
    }

    /// Takes the client's oldest response out of its box. It bears the client's own number.
    #[inline(always)]
    pub fn collect(&mut self, by: u64, client: u64) -> Option<Pdu>
        requires { IsOwn self.old by client }
        ensures collected { IsCollected self.old by client result self.new }
        ensures limits { self.new.limits ≡ self.old.limits }
    {
        let response = self.collect_response(by, client)?;
        Some(response.pdu)
    }
}
