//! A stream of PDUs, as far as it has come.

use crate::buffer::{append, compact_within, lengthen, settle, widen};
use crate::fault::FrameFault;
use crate::front::{Front, front_of};
use crate::spares::Spares;
use crate::whole::decode_whole;
use smx_pdu::Pdu;
use std::alloc::{AllocError, Global};
use std::marker::Model;

/// Cuts a stream of octets into its PDUs. Contracts see it as the stream's octets that were fed and
/// not handed out, and as how many octets it has room for.
#[derive(Drop)]
pub struct Framer {
    alloc: Global,
    octets: Vec<u8>,
    // How many of the octets were handed out, and how many were fed. Those behind are none of the stream.
    start: usize,
    end: usize,
    max: u32,
    failed: Option<FrameFault>,
    spares: Spares,
}

impl Model for Framer {
    ghost use Rattle.std.specs.Prelude.{◌-◌, drop, take, vec_capacity};
    ghost use Rattle.smx_frame.specs.Stream.{Framing};
    ghost use Rattle.smx_frame.specs.Private.Fields.{IsFramer};

    ghost Value = { Framing };

    ghost view = { λ f.
        record {
          stream = record {
            max = f.max;
            rest = drop f.start (take f.end f.octets.items);
            failed = f.failed;
          };
          room = vec_capacity f.octets - f.end;
        } };

    ghost invariant = { IsFramer };
}

impl Framer {
    ghost use Rattle.std.specs.Prelude.{◌≡◌, ◌+◌, ◌≤◌, ◌<◌, ◌++◌, ◌⊎◌, [], None, OnOk, OnErr, IfOk, IfErr, IfSome, IsOk, IsErrOf, is_some, length, take, vec_len};
    ghost use Rattle.smx_frame.specs.Stream.{TakesFirst, BeginsFrame, HasNone, fault_at};

    /// A framer of PDUs with at most `max` octets each, their headers included. It takes no memory.
    pub fn new(alloc: Global, max: u32) -> Framer
        requires least { 16 ≤ max }
        requires most { max ≤ 65536 }
        ensures { result.stream ≡ record { max = max; rest = []; failed = None } }
    {
        Framer {
            alloc,
            octets: Vec::new(alloc),
            start: 0,
            end: 0,
            max,
            failed: None,
            spares: Spares::new(alloc),
        }
    }

    /// From now on lists of so many bodies are kept that are given back, 16 where nothing is said.
    pub fn keep(&mut self, most: usize)
        ensures { self.new ≡ self.old }
    {
        self.spares.keep(most);
    }

    /// Gives a PDU back that is done with: where its list is kept, the body of a later one takes no
    /// memory.
    #[inline(always)]
    pub fn give_back(&mut self, pdu: Pdu)
        ensures { self.new ≡ self.old }
    {
        self.spares.add(pdu.body.into_octets());
    }

    /// What was fed and not handed out: less than a PDU once [`Framer::next_pdu`] has answered
    /// `None`.
    pub fn rest(&self) -> &[u8]
        ensures { result.now ≡ self.now.stream.rest }
    {
        &self.octets[self.start..self.end]
    }

    /// Whether [`Framer::next_pdu`] has answered a bad length, which ends the stream.
    pub fn has_failed(&self) -> bool
        ensures { result ≡ is_some self.now.stream.failed }
    {
        self.failed.is_some()
    }

    /// Makes room for so many octets more, so that to feed them takes no memory. A caller does so
    /// before it reads octets that it couldn't give back.
    pub fn reserve(&mut self, octets: usize) -> Result<(), AllocError>
        ensures stream { self.new.stream ≡ self.old.stream }
        ensures ok { OnOk result (octets ≤ self.new.room) }
        ensures room { self.old.room ≤ self.new.room }
        ensures succeeds { octets ≤ self.old.room → IsOk result }
    {
        compact_within(&mut self.octets, &mut self.start, &mut self.end);
        widen(&mut self.octets, self.end, octets)
    }

    /// Lends the list of its octets, of which so many are those that are left; at least 4,096 more follow,
    /// so that as many can be read there. Nothing is left here until the list is taken back.
    pub fn lend(&mut self) -> (Vec<u8>, usize)
        requires goes_on { self.old.stream.failed ≡ None }
        requires room { 4096 ≤ self.old.room }
        ensures rest { take result.1 result.0.items ≡ self.old.stream.rest }
        ensures room { result.1 + 4096 ≤ vec_len result.0 }
        ensures left { self.new.stream ≡ record self.old.stream { rest = [] } }
    {
        settle(&mut self.octets, &mut self.start, &mut self.end);
        let end = std::mem::take(&mut self.end);
        let mut octets = std::mem::replace(&mut self.octets, Vec::new(self.alloc));
        lengthen(&mut octets, end);
        (octets, end)
    }

    /// Takes a list of octets for its own, of which so many are left.
    pub fn take_back(&mut self, octets: Vec<u8>, end: usize)
        requires goes_on { self.old.stream.failed ≡ None }
        requires within { end ≤ vec_len octets }
        ensures { self.new.stream ≡ record self.old.stream { rest = take end octets.items } }
    {
        self.octets = octets;
        self.start = 0;
        self.end = end;
    }

    /// Takes the next piece of the stream. The fault is that which [`Framer::next_pdu`] has
    /// answered, or `NoMemory`.
    pub fn feed(&mut self, piece: &[u8]) -> Result<(), FrameFault>
        ensures ok { OnOk result (self.new.stream
            ≡ record self.old.stream { rest = self.old.stream.rest ++ piece.now; failed = None }) }
        ensures err { OnErr result (self.new.stream ≡ self.old.stream) }
        ensures failed { (e : FrameFault) → self.old.stream.failed ≡ Some e → result ≡ Err e }
        ensures only { IfErr result (λ e. (e ≡ FrameFault.NoMemory)
            ⊎ (self.old.stream.failed ≡ Some e)) }

        // Memory is wanted only where there is no room, which a PDU handed out leaves as it was.
        ensures memory { IsErrOf result FrameFault.NoMemory → self.old.room < length piece.now }
        ensures room { self.old.room ≤ self.new.room + length piece.now }
    {
        if let Some(fault) = self.failed {
            return Err(fault);
        }
        compact_within(&mut self.octets, &mut self.start, &mut self.end);
        match append(&mut self.octets, &mut self.end, piece) {
            Ok(()) => Ok(()),
            Err(_) => Err(FrameFault::NoMemory),
        }
    }

    /// The next whole PDU, where there is one. It allocates at most once, for the PDU's body. The first
    /// bad length is answered once the PDUs before it are out, as soon as its four octets stand
    /// there; from then on it is the answer of each call.
    #[inline(always)]
    pub fn next_pdu(&mut self) -> Result<Option<Pdu>, FrameFault>
        ensures some { IfOk result
            (λ found. IfSome found
            (λ p. TakesFirst self.old.stream.max self.old.stream.rest p self.new.stream.rest
            × (self.new.stream
            ≡ record self.old.stream { rest = self.new.stream.rest; failed = None }))) }
        ensures none { result ≡ Ok None → HasNone self.old.stream.max self.old.stream.rest
            × (fault_at self.old.stream.max self.old.stream.rest ≡ None) × (self.new ≡ self.old) }
        ensures faults { (e : FrameFault)
            → fault_at self.old.stream.max self.old.stream.rest ≡ Some e → (result ≡ Err e)
            × (self.new.stream ≡ record self.old.stream { failed = Some e }) }
        ensures only { IfErr result (λ e. (e ≡ FrameFault.NoMemory)
            ⊎ (fault_at self.old.stream.max self.old.stream.rest ≡ Some e)) }
        ensures memory { IsErrOf result FrameFault.NoMemory
            → BeginsFrame self.old.stream.max self.old.stream.rest × (self.new ≡ self.old) }
        ensures room { self.new.room ≡ self.old.room }
    {
        match front_of(self.rest(), self.max) {
            Front::Part => Ok(None),
            Front::Bad(fault) => {
                self.failed = Some(fault);
                Err(fault)
            }
            Front::Whole(length) => {
                let list = self.spares.list(self.alloc);
                let (octets, _) = self.rest().split_at(length);
                let Ok(pdu) = decode_whole(list, octets) else {
                    return Err(FrameFault::NoMemory);
                };
                self.start += length;
                Ok(Some(pdu))
            }
        }
    }
}
