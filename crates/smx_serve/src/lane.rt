//! One upstream: while there is a link its worker beside its socket, else what the next worker is
//! made of.

use crate::addresses::Addresses;
use crate::course::{Course, Way};
use crate::linked::{Linked, Spare, Turned, link_to};
use crate::pace::Moment;
use crate::queues::Queues;
use crate::seats::Drawer;
use mio::Registry;
use smx_config::Upstream;
use smx_lane::Load;
use smx_notice::{LinkLoss, LinkState};
use smx_session::UpstreamState;
use smx_slots::{LaneBell, LaneEnds};
use smx_socket::Socket;
use smx_turns::RunEnd;
use smx_upstream::LastRequest;
use std::alloc::Global;
use std::io;
use std::net::{Net, SocketAddr};
use std::rc::Rc;
use std::sync::Wait;

/// One upstream.
#[derive(Drop)]
pub(crate) struct Lane {
    link: Option<Linked>,
    spare: Option<Spare>,
    // How its next link comes about.
    course: Course,
    // Since which moment what is queued here waits for a link, in milliseconds.
    lost: Option<u64>,
}

/// How a link was lost, which request went out last over it, and how many failed with it.
#[derive(Clone, Copy)]
pub(crate) struct Lost {
    pub loss: LinkLoss,
    pub last: Option<LastRequest>,
    pub failed: usize,
}

/// Why no link could be begun.
#[derive(Drop)]
pub(crate) enum Unlinked {
    /// The system refused, for this reason, or there was no memory.
    Unreached(Option<io::Error>),
    /// Its name has no address, for this reason.
    Unknown(String),
}

// What rings where a lane's worker is closed or gives up.
fn lane_bell<'a>(queues: &'a mut Queues, addresses: &'a mut Addresses) -> LaneBell<'a> {
    LaneBell::new(
        queues.lanes,
        &mut queues.schedule,
        &addresses.roll,
        &mut addresses.ledger,
        &mut addresses.hints,
    )
}

impl Lane {
    // Not connected yet: it takes no requests until it is bound.
    pub fn new<R: Wait>(rt: &R, alloc: Global, mut drawer: Drawer, ends: LaneEnds) -> Lane {
        drawer.lower(rt);
        Lane {
            link: None,
            spare: Some(Spare { drawer, ends }),
            course: Course::new(alloc),
            lost: None,
        }
    }

    // Whether it takes requests.
    pub fn is_bound(&self) -> bool {
        match &self.link {
            Some(linked) => linked.state == UpstreamState::Bound,
            None => false,
        }
    }

    // How it stands.
    pub fn standing(&self, now: u64) -> LinkState {
        let Some(linked) = &self.link else {
            return LinkState::Down {
                again: self.rest(now),
            };
        };
        match linked.bound {
            Some(bound) => LinkState::Bound {
                time: now.saturating_sub(bound),
                waits: linked.socket.has_octets(),
            },
            None => LinkState::Binding {
                time: now.saturating_sub(linked.begun),
            },
        }
    }

    pub fn socket(&self) -> Option<&Socket> {
        match &self.link {
            Some(linked) => Some(&linked.socket),
            None => None,
        }
    }

    // Whether no octet waits for its socket, and, where it is to end, its worker has ended.
    pub fn is_settled(&self, ends: bool) -> bool {
        match &self.link {
            Some(linked) => !linked.socket.has_octets() && (linked.over || !ends),
            None => true,
        }
    }

    // Ends its session in order. True where there is an answer to wait for.
    pub fn stop(&mut self) -> bool {
        match &mut self.link {
            Some(linked) => {
                linked.wants_turn();
                linked.carrier.stop()
            }
            None => false,
        }
    }

    // Takes in how much the lane holds, of whose requests so many may be unanswered. Whether it is pressed: its
    // window is full and as many requests wait behind it, though its last turn settled half of it, and more than
    // one.
    pub fn note_load(&mut self, load: Load, window: usize) -> bool {
        let Some(linked) = &mut self.link else {
            return false;
        };
        linked.is_full = load.unanswered >= window;
        let is_brisk = linked.settled > 1 && linked.settled >= window / 2;
        linked.is_full && load.queued >= window && is_brisk
    }

    // Turns the worker, where there is one that hasn't ended.
    pub fn turn<R: Wait>(
        &mut self,
        rt: &R,
        queues: &mut Queues,
        addresses: &mut Addresses,
        lane: usize,
        now: u64,
    ) -> Option<Turned> {
        let turned = match &mut self.link {
            Some(linked) if !linked.over => linked.turn(rt, queues, addresses, lane, now),
            _ => return None,
        };
        if turned.newly_bound {
            self.lost = None;
        }
        Some(turned)
    }

    // Whether a turn found that its bind waits for an answer since so many milliseconds: it read what had
    // come before.
    pub fn is_late(&self, most: u64) -> bool {
        match &self.link {
            Some(linked) => {
                let waits = linked.state == UpstreamState::Binding;
                waits && linked.turned >= linked.begun.saturating_add(most)
            }
            None => false,
        }
    }

    // Parts from its link at this moment: what was said last is written, and what was taken and not
    // answered fails. How many requests failed. It is tried again at once.
    fn part<R: Wait>(
        &mut self,
        rt: &R,
        queues: &mut Queues,
        addresses: &mut Addresses,
        now: u64,
    ) -> usize {
        let Some(linked) = self.link.take() else {
            return 0;
        };
        let Linked {
            carrier,
            socket,
            bound,
            ..
        } = linked;
        socket.flush();
        let mut bell = lane_bell(queues, addresses);
        let (drawer, ends, failed) = carrier.close(rt, &mut bell);
        queues.fail(failed);
        self.spare = Some(Spare { drawer, ends });
        if bound.is_some() {
            self.lost = Some(now);
        }
        failed
    }

    // Parts from its link, whose bind isn't answered.
    pub fn end_late<R: Wait>(
        &mut self,
        rt: &R,
        moment: &Moment<'_>,
        queues: &mut Queues,
        addresses: &mut Addresses,
    ) -> Lost {
        let failed = self.part(rt, queues, addresses, moment.now);
        if !self.course.has_more() {
            self.course.delay(moment);
        }
        Lost {
            loss: LinkLoss::Unanswered,
            last: None,
            failed,
        }
    }

    // Parts from its link, whose worker has ended so. Nothing is to be said of it where another
    // address of its name is tried at once.
    pub fn lose<R: Wait>(
        &mut self,
        rt: &R,
        moment: &Moment<'_>,
        queues: &mut Queues,
        addresses: &mut Addresses,
        end: RunEnd,
    ) -> Option<Lost> {
        let now = moment.now;
        let (loss, has_held, last) = match &self.link {
            Some(linked) => {
                let last = linked.carrier.last_request();
                (linked.farewell(end), linked.has_held(now), last)
            }
            None => return None,
        };
        let failed = self.part(rt, queues, addresses, now);
        if matches!(loss, LinkLoss::Unreached(_)) && self.course.has_more() {
            return None;
        }
        if has_held {
            self.course.begin_anew();
        }
        self.course.delay(moment);
        Some(Lost { loss, last, failed })
    }

    // In how many milliseconds from this moment it is tried again, where it has no link.
    pub fn rest(&self, now: u64) -> u64 {
        self.course.rest(now)
    }

    // Where its link was lost so long ago that no request waits longer, what is queued here fails: how
    // many requests. A link that isn't bound by then is begun anew.
    pub fn give_up_queued<R: Wait>(
        &mut self,
        rt: &R,
        queues: &mut Queues,
        addresses: &mut Addresses,
        now: u64,
        response: u64,
    ) -> usize {
        match self.lost {
            Some(lost) if now >= lost.saturating_add(response) => {}
            _ => return 0,
        }
        self.part(rt, queues, addresses, now);
        self.lost = None;
        self.give_up(rt, queues, addresses, now)
    }

    // What was taken and not answered fails, and what is queued: how many requests. A link that it has
    // stays, and no request is taken over it from then on.
    pub fn give_up<R: Wait>(
        &mut self,
        rt: &R,
        queues: &mut Queues,
        addresses: &mut Addresses,
        now: u64,
    ) -> usize {
        let mut bell = lane_bell(queues, addresses);
        let failed = match (&mut self.link, &mut self.spare) {
            (Some(linked), _) => {
                linked.wants_turn();
                linked.carrier.give_up(rt, &mut bell, now)
            }
            (None, Some(spare)) => spare.drawer.give_up_queued(rt, &mut bell, now),
            (None, None) => 0,
        };
        queues.fail(failed);
        failed
    }

    // Lets go what was noted of its lane, where that is enough. A worker does it of its own.
    pub fn turn_over<R: Wait>(&mut self, rt: &R) {
        if let Some(spare) = &mut self.spare {
            spare.drawer.turn_over(rt);
        }
    }

    // Begins to connect to this address. Where that can't be begun, the system's reason, if it is one.
    fn link_to<R: Wait + Net>(
        &mut self,
        rt: &R,
        registry: &Registry,
        moment: &Moment<'_>,
        upstream: &Upstream,
        address: SocketAddr,
    ) -> Result<(), Option<io::Error>> {
        let Some(spare) = self.spare.take() else {
            return Err(None);
        };
        match link_to(rt, registry, moment, upstream, spare, address) {
            Ok(linked) => {
                self.link = Some(linked);
                Ok(())
            }
            Err((spare, reason)) => {
                self.spare = Some(spare);
                Err(reason)
            }
        }
    }

    // Goes on towards a link, where there is none and it is time; its bind is the first that its
    // worker writes. Where none can be begun it is tried again after a pause.
    pub fn connect<R: Wait + Net>(
        &mut self,
        rt: &R,
        registry: &Registry,
        moment: &Moment<'_>,
        upstream: &Upstream,
        lane: usize,
    ) -> Result<(), Unlinked> {
        for _ in 0..MOST {
            if self.spare.is_none() {
                return Ok(());
            }
            let address = match self
                .course
                .next(rt, moment, lane, upstream.address.as_str())
            {
                Way::Waits => return Ok(()),
                Way::Unknown(reason) => {
                    self.course.delay(moment);
                    return Err(Unlinked::Unknown(reason));
                }
                Way::To(address) => address,
            };
            let begun = self.link_to(rt, registry, moment, upstream, address);
            if let Err(reason) = begun {
                if !self.course.has_more() {
                    self.course.delay(moment);
                    return Err(Unlinked::Unreached(reason));
                }
            }
        }
        Ok(())
    }
}

/// More addresses than a name has.
const MOST: usize = 64;
