//! PDUs over a link.
ghost use Rattle.std.specs.Prelude.{◌≡◌, ℕ, List, ◌+◌, ◌<◌, ◌≤◌, ◌++◌, ◌⊎◌, [], ◌∷◌, length, IfOk, IfErr, IfSome, OnOk, IsOk, IsTrue, ◌↔◌, Some, None, Ok, Err, drop, take, vec_len, vec_capacity};
ghost use Rattle.smx_pdu.specs.Pdu.{octets_of, spelling};
ghost use Rattle.smx_pdu.specs.declared.pdu.Pdu.{Pdu};
ghost use Rattle.smx_frame.specs.Stream.{TakesFirst, HasNone, fault_at};
ghost use Rattle.smx_link.specs.Links.{fault_count};
ghost use Rattle.smx_link.specs.Wiring.{Balances};

use crate::link::{Link, LinkFault, Polled};
use smx_frame::{FrameFault, Framer, compact};
use smx_pdu::{Header, MAX_PDU, Pdu, encode_within, read_header};
use smx_trace::Trace;
use std::alloc::{AllocError, Global};
use std::marker::Model;
use std::snapshot::Snapshot;

/// The most octets that one read asks for.
const MOST: usize = 4_096;

/// PDUs over a link (SMPP 3.4, section 3.2). Contracts see the link, all PDUs that were heard and
/// said over it, and the octets between.
#[derive(Drop)]
pub struct Wire<L: Link + Drop> {
    link: L,
    framer: Framer,
    // What was said, as far as it was not let go again.
    waiting: Vec<u8>,
    // How many of these octets the link took.
    sent: usize,
    start: Snapshot<L>,
    heard: Trace<Pdu>,
    said: Trace<Pdu>,
}

impl<L: Link + Drop> Model for Wire<L> {
    ghost use Rattle.std.specs.Prelude.{◌-◌, ◌≤◌, ◌≡◌, drop, vec_len, vec_capacity};
    ghost use Rattle.smx_link.specs.Wiring.{Wiring, Balances};

    ghost Value = { Wiring L };

    ghost view = { λ w. record {
      link = w.link;
      start = w.start.value;
      heard = w.heard;
      said = w.said;
      rest = w.framer.stream.rest;
      unsent = drop w.sent w.waiting.items;
      failed = w.framer.stream.failed;
      intake = w.framer.room;
      room = vec_capacity w.waiting - vec_len w.waiting;
    } };

    ghost invariant = { λ w. ((w.sent ≤ vec_len w.waiting) × (w.framer.stream.max ≡ 65536))
        × Balances L.given L.taken (record {
          link = w.link;
          start = w.start.value;
          heard = w.heard;
          said = w.said;
          rest = w.framer.stream.rest;
          unsent = drop w.sent w.waiting.items;
          failed = w.framer.stream.failed;
          intake = w.framer.room;
          room = vec_capacity w.waiting - vec_len w.waiting;
        }) };
}

// Reads once behind the first `end` octets, at most 4,096: the answer, and where the octets end then.
fn read_behind<L: Link + Drop>(
    link: &mut L,
    octets: &mut Vec<u8>,
    end: usize,
) -> (Result<Polled, LinkFault>, usize)
    requires room { end + MOST ≤ vec_len octets.old }
    ensures within { result.1 ≤ vec_len octets.new }
    ensures given { L.given link.new
        ≡ L.given link.old ++ drop end (take result.1 octets.new.items) }
    ensures kept { take end (take result.1 octets.new.items) ≡ take end octets.old.items }
    ensures taken { L.taken link.new ≡ L.taken link.old }
    ensures offered { L.offered link.new ≡ L.offered link.old }
    ensures polls { L.polls link.new ≡ L.polls link.old ++ result.0 ∷ [] }
    ensures failures { L.failures link.new ≡ L.failures link.old + fault_count result.0 }
{
    match link.poll_read(&mut octets[end..end + MOST]) {
        Ok(Polled::Octets(count)) => (Ok(Polled::Octets(count)), end + count),
        answer => (answer, end),
    }
}

// The octets that a PDU of this length begins with.
fn header_of(pdu: &Pdu, length: u32) -> [u8; 16]
    ensures { result ≡ octets_of length ++ (octets_of pdu.now.command
        ++ (octets_of pdu.now.status ++ octets_of pdu.now.number)) }
{
    let [a, b, c, d] = length.to_be_bytes();
    let [e, f, g, h] = pdu.command.to_be_bytes();
    let [i, j, k, l] = pdu.status.to_be_bytes();
    let [m, n, o, p] = pdu.number.to_be_bytes();
    [a, b, c, d, e, f, g, h, i, j, k, l, m, n, o, p]
}

// Writes octets at the end, where there is room.
#[inline(always)]
fn append_within(out: &mut Vec<u8>, octets: &[u8])
    requires { vec_len out.old + length octets.now ≤ vec_capacity out.old }
    ensures items { out.new.items ≡ out.old.items ++ octets.now }
    ensures len { vec_len out.new ≡ vec_len out.old + length octets.now }
    ensures capacity { vec_capacity out.old ≤ vec_capacity out.new }
{
    let _ = out.extend_from_slice(octets);
}

// Writes a PDU's octets at the end, where there is room for so many.
#[inline(always)]
fn append_pdu(pdu: &Pdu, out: &mut Vec<u8>)
    requires { vec_len out.old + (16 + length pdu.now.body) ≤ vec_capacity out.old }
    ensures items { out.new.items ≡ out.old.items ++ spelling pdu.now }
    ensures len { vec_len out.new ≡ vec_len out.old + (16 + length pdu.now.body) }
    ensures capacity { vec_capacity out.old ≤ vec_capacity out.new }
{
    let body = pdu.body.as_slice();
    let length = (16 + body.len()) as u32;
    append_within(out, &header_of(pdu, length));
    append_within(out, body);
}

impl<L: Link + Drop> Wire<L> {
    /// A wire over a link, which may have a past. It takes no memory.
    pub fn new(alloc: Global, link: L) -> Wire<L>
        ensures link { (result.link ≡ link) × (result.start ≡ link) }
        ensures none { (result.heard ≡ []) × (result.said ≡ []) }
        ensures octets { (result.rest ≡ []) × (result.unsent ≡ []) }
        ensures failed { result.failed ≡ None }
    {
        let start = Snapshot::of(&link);
        Wire {
            link,
            framer: Framer::new(alloc, 65_536),
            waiting: Vec::new(alloc),
            sent: 0,
            start,
            heard: Trace::new(),
            said: Trace::new(),
        }
    }

    /// The link again. Octets that it has not taken are let go.
    pub fn into_link(self) -> L
        ensures { result ≡ self.link }
    {
        self.link
    }

    /// Offers the link what it has not taken, where there is any, by one write.
    pub fn offer(&mut self) -> Result<(), LinkFault>
        ensures offered { L.offered self.new.link ≡ L.offered self.old.link ++ self.old.unsent }
        ensures polls { L.polls self.new.link ≡ L.polls self.old.link }
        ensures failures { L.failures self.new.link
            ≡ L.failures self.old.link + fault_count result }
        ensures same { self.new ≡ record self.old {
          link = self.new.link;
          unsent = self.new.unsent;
        } }
    {
        if self.sent == self.waiting.len() {
            return Ok(());
        }
        match self.link.write(&self.waiting[self.sent..]) {
            Ok(count) => {
                self.sent += count;
                Ok(())
            }
            Err(LinkFault) => Err(LinkFault),
        }
    }

    /// How many octets of what was said the link has not taken.
    pub fn unsent(&self) -> usize
        ensures { result ≡ length self.now.unsent }
    {
        self.waiting.len() - self.sent
    }

    /// Whether the link has taken all that was said.
    pub fn is_clear(&self) -> bool
        ensures { IsTrue result ↔ (self.now.unsent ≡ []) }
    {
        self.sent == self.waiting.len()
    }

    /// Makes room for one PDU more to be said, however long it is. Where there is none it asks for as
    /// much as two take, so that the first few of a turn move nothing.
    #[inline(always)]
    pub fn make_room(&mut self) -> Result<(), AllocError>
        ensures room { OnOk result (65536 ≤ self.new.room) }
        ensures succeeds { 65536 ≤ self.old.room → IsOk result }
        ensures same { self.new ≡ record self.old { room = self.new.room } }
    {
        compact(&mut self.waiting, &mut self.sent);
        if self.waiting.capacity() - self.waiting.len() >= MAX_PDU {
            return Ok(());
        }
        self.waiting.reserve(2 * MAX_PDU)
    }

    /// Says a PDU: its octets are to go to the link. It takes no memory.
    pub fn say(&mut self, pdu: &Pdu)
        requires room { 65536 ≤ self.old.room }
        ensures said { self.new.said ≡ self.old.said ++ pdu.now ∷ [] }
        ensures unsent { self.new.unsent ≡ self.old.unsent ++ spelling pdu.now }
        ensures same { self.new ≡ record self.old {
          said = self.new.said;
          unsent = self.new.unsent;
          room = self.new.room;
        } }
    {
        encode_within(pdu, &mut self.waiting);
        self.said = self.said.and(pdu);
    }

    /// Says a PDU that there is room for, and leaves the rest of the room: so several PDUs are said once
    /// room was made. It takes no memory.
    #[inline(always)]
    pub fn say_within(&mut self, pdu: &Pdu)
        requires room { 16 + length pdu.now.body ≤ self.old.room }
        ensures said { self.new.said ≡ self.old.said ++ pdu.now ∷ [] }
        ensures unsent { self.new.unsent ≡ self.old.unsent ++ spelling pdu.now }
        ensures left { self.old.room ≤ self.new.room + (16 + length pdu.now.body) }
        ensures same { self.new ≡ record self.old {
          said = self.new.said;
          unsent = self.new.unsent;
          room = self.new.room;
        } }
    {
        append_pdu(pdu, &mut self.waiting);
        let said = self.said.and(pdu);
        self.said = said;
    }

    /// Makes room for what one read may give.
    pub fn make_ready(&mut self) -> Result<(), AllocError>
        ensures intake { OnOk result (4096 ≤ self.new.intake) }
        ensures same { self.new ≡ record self.old { intake = self.new.intake } }
    {
        self.framer.reserve(MOST)
    }

    /// Reads once, at most 4,096 octets. It takes no memory, so nothing that the link gave is lost.
    pub fn read(&mut self) -> Result<Polled, LinkFault>
        requires goes_on { self.old.failed ≡ None }
        requires intake { 4096 ≤ self.old.intake }
        ensures polls { L.polls self.new.link ≡ L.polls self.old.link ++ result ∷ [] }
        ensures offered { L.offered self.new.link ≡ L.offered self.old.link }
        ensures failures { L.failures self.new.link
            ≡ L.failures self.old.link + fault_count result }
        ensures same { self.new ≡ record self.old {
          link = self.new.link;
          rest = self.new.rest;
          intake = self.new.intake;
        } }
    {
        let (mut octets, end) = self.framer.lend();
        let (answer, end) = read_behind(&mut self.link, &mut octets, end);
        self.framer.take_back(octets, end);
        answer
    }

    /// The command of the next whole PDU, where one is there: it is heard next, unless memory is wanted
    /// for its body.
    #[inline(always)]
    pub fn next_command(&self) -> Option<u32>
        ensures command { IfSome result (λ k. (p : Pdu) (rest : List ℕ)
            → TakesFirst 65536 self.now.rest p rest → p.command ≡ k) }
        ensures whole { IfSome result (λ k. fault_at 65536 self.now.rest ≡ None) }
        ensures none { result ≡ None → HasNone 65536 self.now.rest }
    {
        let octets = self.framer.rest();
        let first = octets.first_chunk::<16>()?;
        let Header {
            length,
            command,
            ..
        } = read_header(first);
        if length < 16 || length > 65_536 || octets.len() < length as usize {
            return None;
        }
        Some(command)
    }

    /// Hears the next whole PDU, where there is one. The fault is that of a bad length, which ends
    /// the stream, or `NoMemory` for the PDU's body.
    #[inline(always)]
    pub fn hear(&mut self) -> Result<Option<Pdu>, FrameFault>
        ensures some { IfOk result
            (λ found. IfSome found (λ p. (self.new.heard ≡ self.old.heard ++ p ∷ [])
            × TakesFirst 65536 self.old.rest p self.new.rest × (self.new.failed ≡ None))) }
        ensures none { result ≡ Ok None → HasNone 65536 self.old.rest × (self.new ≡ self.old) }
        ensures bad { IfErr result (λ e. ((e ≡ FrameFault.NoMemory) × (self.new ≡ self.old))
            ⊎ ((fault_at 65536 self.old.rest ≡ Some e)
            × (self.new ≡ record self.old { failed = Some e }))) }
        ensures memory { result ≡ Err FrameFault.NoMemory → self.new ≡ self.old }
        ensures less { IfOk result
            (λ found. IfSome found (λ p. length self.new.rest < length self.old.rest)) }
        ensures same { self.new ≡ record self.old {
          heard = self.new.heard;
          rest = self.new.rest;
          failed = self.new.failed;
        } }
    {
        match self.framer.next_pdu() {
            Ok(Some(pdu)) => {
                self.heard = self.heard.and(&pdu);
                Ok(Some(pdu))
            }
            Ok(None) => Ok(None),
            Err(fault) => Err(fault),
        }
    }

    /// From now on the lists of so many bodies are kept that are given back, 16 where nothing is said.
    pub fn keep(&mut self, most: usize)
        ensures { self.new ≡ self.old }
    {
        self.framer.keep(most);
    }

    /// Gives a PDU back that is done with: where its list is kept, the body of a later one that is heard
    /// takes no memory.
    #[inline(always)]
    pub fn give_back(&mut self, pdu: Pdu)
        ensures { self.new ≡ self.old }
    {
        self.framer.give_back(pdu);
    }

    /// What a wire keeps at every call.
    pub fn law(&self)
        ensures { Balances L.given L.taken self.now }
    {
        let _ = &self.sent;
    }
}
