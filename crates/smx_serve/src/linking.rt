//! How the loop turns each upstream's worker, and keeps each upstream connected.

use crate::addresses::Addresses;
use crate::guests::Guests;
use crate::lane::{Lane, Lost, Unlinked};
use crate::pace::Moment;
use crate::queues::Queues;
use mio::Registry;
use smx_config::Upstream;
use smx_notice::{LastSent, LinkLoss, Notice, UpstreamName, UpstreamNews};
use smx_turns::RunEnd;
use smx_upstream::LastRequest;
use std::net::Net;
use std::sync::Wait;

/// A lane's upstream, as lines name it.
pub(crate) fn name_of<'d>(moment: &Moment<'d>, lane: usize) -> Option<UpstreamName<'d>> {
    let Moment { config, .. } = *moment;
    let upstream = config.upstream.get(lane)?;
    Some(UpstreamName {
        lane,
        system_id: upstream.system_id.as_str(),
        address: upstream.address.as_str(),
    })
}

// Says what becomes of a lane's upstream.
fn say<R: Wait>(rt: &R, moment: &Moment<'_>, lane: usize, news: UpstreamNews<'_>) {
    if let Some(name) = name_of(moment, lane) {
        moment.say(rt, Notice::Upstream(name, news));
    }
}

// Says that a lane has no link, whose request went out last over it, by the name of that client's
// account, and when it is tried again.
fn say_lost<R: Wait>(
    rt: &R,
    moment: &Moment<'_>,
    lane: usize,
    place: &Lane,
    lost: Lost,
    system_id: Option<&str>,
) {
    let Lost { loss, last, failed } = lost;
    let again = place.rest(moment.now);
    let last = match last {
        Some(LastRequest { client, command }) => Some(LastSent {
            command,
            client,
            system_id,
        }),
        None => None,
    };
    let news = UpstreamNews::Lost {
        loss,
        last,
        failed,
        again,
    };
    say(rt, moment, lane, news);
}

/// Turns a lane's worker until it is idle, at most so often. One that has ended loses its link, and
/// is tried again after a pause, or at once by another address of its name.
pub(crate) fn turn_lane<R: Wait>(
    rt: &R,
    moment: &Moment<'_>,
    queues: &mut Queues,
    addresses: &mut Addresses,
    guests: &Guests<'_>,
    lane: usize,
    place: &mut Lane,
) {
    let Some(turned) = place.turn(rt, queues, addresses, lane, moment.now) else {
        return;
    };
    if turned.newly_bound {
        say(rt, moment, lane, UpstreamNews::Bound);
    }
    match turned.end {
        RunEnd::Idle | RunEnd::Turns | RunEnd::Filled => {}
        RunEnd::Left | RunEnd::Fault(_) if moment.stopping => {
            say(rt, moment, lane, UpstreamNews::Unbound);
        }
        end @ (RunEnd::Left | RunEnd::Fault(_)) => {
            let lost = place.lose(rt, moment, queues, addresses, end);
            queues.add_slots();
            match lost {
                Some(lost) => {
                    let system_id = guests.account_of(&addresses.roll, lost.last);
                    say_lost(rt, moment, lane, place, lost, system_id);
                }
                None => queues.hurry(),
            }
        }
    }
}

// Ends a lane's link whose bind isn't answered.
fn end_late<R: Wait>(
    rt: &R,
    moment: &Moment<'_>,
    queues: &mut Queues,
    addresses: &mut Addresses,
    lane: usize,
    place: &mut Lane,
) {
    let Moment { timers, .. } = *moment;
    if !place.is_late(timers.enquire) {
        return;
    }
    let lost = place.end_late(rt, moment, queues, addresses);
    queues.add_slots();
    say_lost(rt, moment, lane, place, lost, None);
}

// Answers what is queued on a lane whose link was lost too long ago.
fn give_up<R: Wait>(
    rt: &R,
    moment: &Moment<'_>,
    queues: &mut Queues,
    addresses: &mut Addresses,
    lane: usize,
    place: &mut Lane,
) {
    let Moment { timers, now, .. } = *moment;
    let failed = place.give_up_queued(rt, queues, addresses, now, timers.response);
    if failed > 0 {
        queues.add_slots();
        say(rt, moment, lane, UpstreamNews::GivenUp { failed });
    }
}

// Connects a lane that has no link, where it is time.
fn connect<R: Wait + Net>(
    rt: &R,
    registry: &Registry,
    moment: &Moment<'_>,
    upstream: &Upstream,
    lane: usize,
    place: &mut Lane,
) {
    match place.connect(rt, registry, moment, upstream, lane) {
        Ok(()) => {}
        Err(Unlinked::Unreached(reason)) => {
            let lost = Lost {
                loss: LinkLoss::Unreached(reason),
                last: None,
                failed: 0,
            };
            say_lost(rt, moment, lane, place, lost, None);
        }
        Err(Unlinked::Unknown(reason)) => {
            let news = UpstreamNews::Unknown {
                reason: reason.as_str(),
                again: place.rest(moment.now),
            };
            say(rt, moment, lane, news);
        }
    }
}

// Sees that a lane has a link, and that nothing waits there without end.
fn tend<R: Wait + Net>(
    rt: &R,
    registry: &Registry,
    moment: &Moment<'_>,
    queues: &mut Queues,
    addresses: &mut Addresses,
    lane: usize,
    place: &mut Lane,
) {
    let config = moment.config;
    end_late(rt, moment, queues, addresses, lane, place);
    give_up(rt, moment, queues, addresses, lane, place);
    place.turn_over(rt);
    if let Some(upstream) = config.upstream.get(lane) {
        connect(rt, registry, moment, upstream, lane, place);
    }
}

/// Tends each lane, but near the end, and turns each.
pub(crate) fn tend_all<R: Wait + Net>(
    rt: &R,
    registry: &Registry,
    moment: &Moment<'_>,
    lanes: &mut [Lane],
    queues: &mut Queues,
    addresses: &mut Addresses,
) {
    for lane in 0..lanes.len() {
        if let Some(place) = lanes.get_mut(lane) {
            if !moment.stopping {
                tend(rt, registry, moment, queues, addresses, lane, place);
            }
        }
        queues.schedule.add(lane);
    }
}
