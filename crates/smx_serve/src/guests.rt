//! The clients that are served.

use crate::addresses::Addresses;
use crate::guest::Guest;
use crate::lingering::{Lingering, Parting};
use crate::pace::Moment;
use crate::queues::Queues;
use crate::seating::Seating;
use smx_client::{Desk, SpareLists};
use smx_notice::{AccountChange, ClientEnd, ClientNews};
use smx_slots::{Roll, Slots};
use smx_socket::Socket;
use smx_turns::RunEnd;
use smx_upstream::LastRequest;
use std::alloc::{AllocError, Global};
use std::sync::Wait;

/// The clients that are served, each in its slot, and the sockets of those that are gone.
#[derive(Drop)]
pub(crate) struct Guests<'d> {
    pub slots: Slots,
    // The clients in no order, and where that of each slot stands.
    guests: Vec<Guest<'d>>,
    seating: Seating,
    lingering: Lingering,
    // Lent to the client whose turn it is, which keeps them until another one has a turn: its slot.
    lists: SpareLists,
    borrower: Option<usize>,
}

impl<'d> Guests<'d> {
    // Nobody in any slot.
    pub fn new(alloc: Global, slots: Slots) -> Result<Guests<'d>, AllocError> {
        let count = slots.count();
        let guests = Vec::with_capacity(alloc, count)?;
        let seating = Seating::new(alloc, count)?;
        let lingering = Lingering::new(alloc, count)?;
        Ok(Guests {
            slots,
            guests,
            seating,
            lingering,
            lists: SpareLists::new(),
            borrower: None,
        })
    }

    /// How many are bound.
    pub fn bound(&self) -> usize {
        self.guests
            .iter()
            .filter(|guest| guest.name.is_some())
            .count()
    }

    // The client has the slot now. There is room for as many as there are slots.
    pub fn seat(&mut self, slot: usize, guest: Guest<'d>) {
        if self.guests.len() < self.guests.capacity() {
            self.guests.push_reserved(guest);
            self.seating.add(slot);
        } else {
            drop(guest);
        }
    }

    // The lists come back from the client that has them, where one has.
    fn take_back(&mut self) {
        let Some(slot) = self.borrower.take() else {
            return;
        };
        if let Some(guest) = self.guests.get_mut(self.seating.place(slot)) {
            guest.member.swap_lists(&mut self.lists);
        }
    }

    // The slot's client has the lists from now on.
    #[inline(never)]
    fn lend(&mut self, slot: usize) {
        self.take_back();
        if let Some(guest) = self.guests.get_mut(self.seating.place(slot)) {
            guest.member.swap_lists(&mut self.lists);
            self.borrower = Some(slot);
        }
    }

    // Turns the slot's client: how that ended, or why it is let go. None where there is no client.
    fn turn_guest<R: Wait>(
        &mut self,
        rt: &R,
        moment: &Moment<'_>,
        queues: &mut Queues,
        addresses: &mut Addresses,
        slot: usize,
    ) -> Option<Result<RunEnd, ClientEnd>> {
        if self.borrower != Some(slot) {
            self.lend(slot);
        }
        let guest = self.guests.get_mut(self.seating.place(slot))?;
        let Some((end, state)) = guest.turn(rt, moment, queues, addresses, slot) else {
            return Some(Err(ClientEnd::NoHeader));
        };
        guest.say_bound(rt, moment, state);
        if guest.is_refused() {
            return Some(Err(ClientEnd::TurnedOut));
        }
        Some(Ok(end))
    }

    // The same, and lets the client go whose worker has ended. True where it has. Where there is no client it
    // goes on with the socket of one that is gone.
    pub fn turn<R: Wait>(
        &mut self,
        rt: &R,
        moment: &Moment<'_>,
        queues: &mut Queues,
        addresses: &mut Addresses,
        slot: usize,
    ) -> bool {
        match self.turn_guest(rt, moment, queues, addresses, slot) {
            None => {
                self.settle(queues, slot, moment.now);
                false
            }
            Some(Ok(RunEnd::Idle | RunEnd::Turns | RunEnd::Filled)) => false,
            Some(Ok(end @ (RunEnd::Left | RunEnd::Fault(_)))) => {
                self.let_go(rt, moment, queues, addresses, slot, end);
                true
            }
            Some(Err(end)) => {
                self.dismiss_one(rt, moment, queues, addresses, slot, end);
                true
            }
        }
    }

    // Lets the slot's client go, and says this of it.
    fn dismiss_one<R: Wait>(
        &mut self,
        rt: &R,
        moment: &Moment<'_>,
        queues: &mut Queues,
        addresses: &mut Addresses,
        slot: usize,
        end: ClientEnd,
    ) {
        if let Some(guest) = self.take(slot) {
            guest.say(rt, moment, ClientNews::Gone(end));
            self.part(rt, queues, addresses, slot, guest, moment.now);
        }
    }

    // Lets the slot's client go, whose worker's last run ended so.
    fn let_go<R: Wait>(
        &mut self,
        rt: &R,
        moment: &Moment<'_>,
        queues: &mut Queues,
        addresses: &mut Addresses,
        slot: usize,
        end: RunEnd,
    ) {
        let Some(guest) = self.take(slot) else {
            return;
        };
        guest.say(rt, moment, ClientNews::Gone(guest.farewell(end)));
        self.part(rt, queues, addresses, slot, guest, moment.now);
    }

    // What a tick finds of the slot's client: why it is let go now, if it is. One whose next refusal may be
    // due is turned.
    fn found_at(
        &mut self,
        moment: &Moment<'_>,
        queues: &mut Queues,
        slot: usize,
    ) -> Option<ClientEnd> {
        let Moment { timers, now, .. } = *moment;
        let guest = self.guests.get_mut(self.seating.place(slot))?;
        if guest.refusals.is_paced(now) {
            let party = queues.party(slot);
            queues.schedule.add(party);
        }
        if guest.has_parted(now) {
            return Some(ClientEnd::NotUnbound);
        }
        if guest.is_stuck(now, timers.client_silence.saturating_mul(2)) {
            return Some(ClientEnd::Stuck);
        }
        guest
            .stays_late(now, timers.bind)
            .then_some(ClientEnd::Late)
    }

    /// Lets each client go that wasn't bound in time, takes no octet, or didn't answer the proxy's unbind. A
    /// tick finds it.
    pub fn let_late_go<R: Wait>(
        &mut self,
        rt: &R,
        moment: &Moment<'_>,
        queues: &mut Queues,
        addresses: &mut Addresses,
    ) {
        for slot in 0..queues.slots {
            if let Some(end) = self.found_at(moment, queues, slot) {
                self.dismiss_one(rt, moment, queues, addresses, slot, end);
            }
        }
    }

    // Sends the slot's client unbind. False where there is none that is bound.
    fn unbind_at<R: Wait>(
        &mut self,
        rt: &R,
        queues: &mut Queues,
        addresses: &mut Addresses,
        slot: usize,
        now: u64,
    ) -> bool {
        let Some(guest) = self.guests.get_mut(self.seating.place(slot)) else {
            return false;
        };
        let was_sent = guest.unbind(rt, addresses, now);
        if was_sent {
            let party = queues.party(slot);
            queues.schedule.add(party);
        }
        was_sent
    }

    /// Lets each client go that isn't bound.
    pub fn dismiss_strangers<R: Wait>(
        &mut self,
        rt: &R,
        moment: &Moment<'_>,
        queues: &mut Queues,
        addresses: &mut Addresses,
    ) {
        for slot in 0..queues.slots {
            let is_stranger = match self.at(slot) {
                Some(guest) => guest.name.is_none(),
                None => false,
            };
            if is_stranger {
                self.let_go(rt, moment, queues, addresses, slot, RunEnd::Left);
            }
        }
    }

    /// Sends each client that is bound unbind, and lets the others go.
    pub fn unbind_all<R: Wait>(
        &mut self,
        rt: &R,
        moment: &Moment<'_>,
        queues: &mut Queues,
        addresses: &mut Addresses,
    ) {
        for slot in 0..queues.slots {
            if !self.unbind_at(rt, queues, addresses, slot, moment.now) {
                self.let_go(rt, moment, queues, addresses, slot, RunEnd::Left);
            }
        }
    }

    /// Whether no client is served.
    pub fn are_gone(&self) -> bool {
        self.guests.is_empty()
    }

    // Lets each client go, though it may not have answered the proxy's unbind.
    pub fn dismiss<R: Wait>(
        &mut self,
        rt: &R,
        moment: &Moment<'_>,
        queues: &mut Queues,
        addresses: &mut Addresses,
    ) {
        for slot in 0..queues.slots {
            self.dismiss_one(rt, moment, queues, addresses, slot, ClientEnd::NotUnbound);
        }
    }

    // The slot's client.
    pub fn at(&self, slot: usize) -> Option<&Guest<'d>> {
        self.guests.get(self.seating.place(slot))
    }

    // The system_id of the account of the client whose request this was, while it is connected.
    pub fn account_of(&self, roll: &Roll, last: Option<LastRequest>) -> Option<&'d str> {
        let slot = roll.slot(last?.client)?;
        self.at(slot)?.name
    }

    // How many slots clients have, and how many the sockets of those that are gone.
    pub fn counts(&self) -> (usize, usize) {
        let mut closing = 0_usize;
        for slot in 0..self.slots.count() {
            if self.lingering.socket(slot).is_some() {
                closing = closing.saturating_add(1);
            }
        }
        (self.guests.len(), closing)
    }

    // What became of the account of the slot's client: its prefixes are others, which go for it from now on,
    // or it is to be unbound.
    fn renew_at<R: Wait>(
        &mut self,
        rt: &R,
        moment: &Moment<'d>,
        queues: &mut Queues,
        addresses: &mut Addresses,
        slot: usize,
    ) {
        let Some(guest) = self.guests.get_mut(self.seating.place(slot)) else {
            return;
        };
        match guest.change(rt, moment) {
            None => return,
            Some(AccountChange::Prefixes | AccountChange::Both) => guest.reroute(
                rt, moment, addresses,
            ),
            Some(AccountChange::Rules) => guest.desk = moment.desk,
            Some(AccountChange::Gone | AccountChange::Password) => {
                self.unbind_at(rt, queues, addresses, slot, moment.now);
            }
        }
    }

    // The accounts have changed: lets each client go that isn't bound yet, and does for each that is bound
    // what follows for it.
    pub fn renew<R: Wait>(
        &mut self,
        rt: &R,
        moment: &Moment<'d>,
        queues: &mut Queues,
        addresses: &mut Addresses,
    ) {
        for slot in 0..queues.slots {
            match self.at(slot) {
                Some(guest) if guest.name.is_none() => {
                    self.dismiss_one(rt, moment, queues, addresses, slot, ClientEnd::Renewed);
                }
                _ => self.renew_at(rt, moment, queues, addresses, slot),
            }
        }
    }

    // The client that has the slot, which has it no more.
    fn take(&mut self, slot: usize) -> Option<Guest<'d>> {
        if self.borrower == Some(slot) {
            self.take_back();
        }
        let at = self.seating.place(slot);
        if at < self.guests.len() {
            self.seating.remove(slot, at);
            Some(self.guests.swap_remove(at))
        } else {
            None
        }
    }

    // The socket of the slot's client, or of one that is gone.
    pub fn socket(&self, slot: usize) -> Option<&Socket> {
        if let Some(guest) = self.guests.get(self.seating.place(slot)) {
            return Some(&guest.socket);
        }
        self.lingering.socket(slot)
    }

    // Parts from a client that had the slot: the slot is free once its socket is.
    fn part<R: Wait>(
        &mut self,
        rt: &R,
        queues: &mut Queues,
        addresses: &mut Addresses,
        slot: usize,
        guest: Guest<'d>,
        now: u64,
    ) {
        let was_bound = guest.name.is_some();
        let (socket, ends) = guest.close(rt, queues, addresses);
        self.slots.keep(slot, ends);
        queues.begin_anew(slot);
        self.lingering.add(slot, socket, was_bound, now);
        self.settle(queues, slot, now);
    }

    // The number of the slot's client, where it isn't bound; 0 of one that is gone and never was.
    fn stranger_at(&self, slot: usize) -> Option<u64> {
        if let Some(guest) = self.guests.get(self.seating.place(slot)) {
            return if guest.name.is_none() {
                Some(guest.client)
            } else {
                None
            };
        }
        self.lingering.is_of_stranger(slot).then_some(0)
    }

    // Where those who aren't bound hold half of the slots: that of one who is gone, or else of the
    // oldest.
    fn slot_to_give(&self) -> Option<usize> {
        let mut count = 0_usize;
        let mut least = u64::MAX;
        let mut first = None;
        for slot in 0..self.slots.count() {
            if let Some(client) = self.stranger_at(slot) {
                count = count.saturating_add(1);
                if client < least {
                    least = client;
                    first = Some(slot);
                }
            }
        }
        if count.saturating_mul(2) >= self.slots.count() {
            first
        } else {
            None
        }
    }

    /// Before one more connects: where those who aren't bound hold half of the slots, one of them gives
    /// its place. Its socket is closed at once, since one that lingers would hold the slot.
    pub fn make_place<R: Wait>(
        &mut self,
        rt: &R,
        moment: &Moment<'_>,
        queues: &mut Queues,
        addresses: &mut Addresses,
    ) {
        let Some(slot) = self.slot_to_give() else {
            return;
        };
        if let Some(guest) = self.take(slot) {
            guest.say(rt, moment, ClientNews::Gone(ClientEnd::Displaced));
            let (socket, ends) = guest.close(rt, queues, addresses);
            drop(socket);
            self.slots.keep(slot, ends);
        }
        self.lingering.remove(slot);
        self.slots.free(slot);
    }

    // Goes on with the socket of a client that is gone, where the slot has one, and frees the slot where
    // that is over.
    fn settle(&mut self, queues: &mut Queues, slot: usize, now: u64) {
        match self.lingering.settle(slot, now) {
            Parting::Waits => {}
            Parting::Reads => {
                let party = queues.party(slot);
                queues.schedule.add(party);
            }
            Parting::Over => {
                self.lingering.remove(slot);
                self.slots.free(slot);
            }
        }
    }

    // The same of all slots.
    pub fn settle_all(&mut self, queues: &mut Queues, now: u64) {
        if self.is_lingering() {
            for slot in 0..self.slots.count() {
                self.settle(queues, slot, now);
            }
        }
    }

    // Whether the socket of a client that is gone is open.
    pub fn is_lingering(&self) -> bool {
        !self.lingering.is_empty()
    }

    // Whether the socket of a client that is gone has octets left to write.
    pub fn is_writing(&self) -> bool {
        self.lingering.is_writing()
    }
}
