//! How all stands, told of while the loop goes on.

use crate::addresses::Addresses;
use crate::guests::Guests;
use crate::lane::Lane;
use crate::linking::name_of;
use crate::pace::Moment;
use crate::seats::Gateway;
use crate::turning::Loop;
use smx_lane::Load;
use smx_notice::{LinkState, Notice, Standing, UpstreamStanding};
use std::sync::Wait;

/// Of how many lanes and slots is told before the next pass.
const STEP: usize = 16;

/// A telling of how all stands: of which lane or slot is told next, where one is under way.
#[derive(Clone, Copy)]
pub(crate) struct Survey {
    next: Option<usize>,
}

impl Survey {
    pub fn new() -> Survey {
        Survey { next: None }
    }

    /// One is begun; one that is under way begins anew.
    pub fn begin(&mut self) {
        self.next = Some(0);
    }

    pub fn is_under_way(self) -> bool {
        self.next.is_some()
    }

    // The lanes or slots of which is told now, of so many of both: from which on and up to which. None
    // where no telling is under way.
    fn step(&mut self, all: usize) -> Option<(usize, usize)> {
        let begin = self.next?;
        let end = begin.saturating_add(STEP).min(all);
        self.next = (end < all).then_some(end);
        Some((begin, end))
    }
}

// How a lane's upstream stands, of which the lane tells how much it holds.
fn standing_of(link: LinkState, load: Option<Load>, now: u64) -> UpstreamStanding {
    let none = UpstreamStanding {
        link,
        queued: 0,
        under_way: 0,
        oldest: None,
        history: 0,
    };
    match load {
        Some(load) => UpstreamStanding {
            link,
            queued: load.queued as u64,
            under_way: load.unanswered as u64,
            oldest: load.earliest.map(|taken| now.saturating_sub(taken)),
            history: load.entries as u64,
        },
        None => none,
    }
}

// Tells how a lane's upstream stands.
fn tell_lane<R: Wait>(
    rt: &R,
    moment: &Moment<'_>,
    gateway: &mut Gateway,
    lane: usize,
    place: &Lane,
) {
    if let Some(name) = name_of(moment, lane) {
        let load = gateway.load(rt, lane);
        let standing = standing_of(place.standing(moment.now), load, moment.now);
        moment.say(rt, Notice::Status(Standing::Upstream(name, standing)));
    }
}

// Tells how the slot's client stands, where it has one.
fn tell_slot<R: Wait>(
    rt: &R,
    moment: &Moment<'_>,
    guests: &Guests,
    addresses: &Addresses,
    slot: usize,
) {
    if let Some(guest) = guests.at(slot) {
        let requests = addresses.ledger.of_client(guest.client);
        let messages = addresses.mail.of(slot);
        let standing = guest.standing(requests, messages, moment.now);
        moment.say(
            rt,
            Notice::Status(Standing::Client(guest.named(), standing)),
        );
    }
}

impl Loop<'_> {
    // Tells how a lane or a slot stands.
    fn tell<R: Wait>(&mut self, rt: &R, party: usize) {
        let moment = &self.pace.moment;
        match self.lanes.get(party) {
            Some(lane) => tell_lane(rt, moment, &mut self.entrance.gateway, party, lane),
            None => tell_slot(
                rt,
                moment,
                &self.guests,
                &self.addresses,
                party.saturating_sub(self.lanes.len()),
            ),
        }
    }

    /// Goes on with a telling, where one is under way: of some lanes and slots, and behind the last of how
    /// many slots are taken and how many requests are under way.
    pub fn tell_some<R: Wait>(&mut self, rt: &R) {
        if self.survey.is_under_way() {
            self.tell_part(rt);
        }
    }

    #[inline(never)]
    fn tell_part<R: Wait>(&mut self, rt: &R) {
        let all = self.lanes.len().saturating_add(self.guests.slots.count());
        let Some((begin, end)) = self.survey.step(all) else {
            return;
        };
        for party in begin..end {
            self.tell(rt, party);
        }
        if !self.survey.is_under_way() {
            let (clients, closing) = self.guests.counts();
            let standing = Standing::Slots {
                taken: clients.saturating_add(closing),
                all: self.guests.slots.count(),
                closing,
            };
            self.pace.moment.say(rt, Notice::Status(standing));
            let requests = Standing::Requests(self.addresses.ledger.under_way());
            self.pace.moment.say(rt, Notice::Status(requests));
        }
    }
}
