//! The box of a client's responses.
ghost use Rattle.std.specs.Prelude.{◌≡◌, ◌<◌, ◌↔◌, [], ◌∷◌, ◌++◌, length, drop, slice_get, IfOk, OnOk, IfErr, IsOk};
ghost use Rattle.std.specs.Option.{option_copied};
ghost use Rattle.circular_buffer.specs.Buffer.{buffer};

use smx_history::Response;
use std::alloc::{AllocError, Global};
use std::collections::VecDeque;
use std::marker::Model;
use std::mem;

// Responses in the order in which they came, at most so many. Once none is left the next one is put at the first
// place again: so few places are used, which stay in the processor's cache.
#[derive(Drop)]
pub(crate) struct ResponseBox {
    alloc: Global,
    responses: VecDeque<Response>,
    places: usize,
}

impl Model for ResponseBox {
    ghost use Rattle.std.specs.Prelude.{◌≤◌};
    ghost use Rattle.std.specs.VecDeque.{deque_capacity};
    ghost use Rattle.circular_buffer.specs.Buffer.{Buffer, buffer};
    ghost use Rattle.smx_history.specs.declared.response.Response.{Response};

    ghost Value = { Buffer Response };

    ghost view = { λ b. buffer b.responses.items b.places };

    ghost invariant = { λ b. b.places ≤ deque_capacity b.responses };
}

impl ResponseBox {
    // An empty box with so many places.
    pub(crate) fn with_capacity(alloc: Global, places: usize) -> Result<ResponseBox, AllocError>
        ensures { IfOk result (λ b. b ≡ buffer [] places) }
    {
        Ok(ResponseBox {
            alloc,
            responses: VecDeque::with_capacity(alloc, places)?,
            places,
        })
    }

    // How many responses wait there.
    pub(crate) fn len(&self) -> usize
        ensures len { result ≡ length self.now.items }
    {
        self.responses.len()
    }

    // The oldest one.
    #[inline(always)]
    pub(crate) fn front(&self) -> Option<&Response>
        ensures { option_copied result ≡ slice_get self.now.items 0 }
    {
        self.responses.front()
    }

    // Puts a response behind the others, or hands it back where the box is full.
    #[inline(always)]
    pub(crate) fn try_push_back(&mut self, response: Response) -> Result<(), Response>
        ensures variant { IsOk result ↔ (length self.old.items < self.old.capacity) }
        ensures ok { OnOk result (self.new
            ≡ buffer (self.old.items ++ response ∷ []) self.old.capacity) }
        ensures err { IfErr result (λ back. (back ≡ response) × (self.new ≡ self.old)) }
    {
        if self.responses.len() >= self.places {
            return Err(response);
        }
        self.responses.push_back_reserved(response);
        Ok(())
    }

    // Takes out the oldest one.
    #[inline(always)]
    pub(crate) fn pop_front(&mut self) -> Option<Response>
        ensures value { result ≡ slice_get self.old.items 0 }
        ensures items { self.new ≡ buffer (drop 1 self.old.items) self.old.capacity }
    {
        let response = self.responses.pop_front()?;
        if self.responses.is_empty() {
            let list = mem::replace(&mut self.responses, VecDeque::new(self.alloc)).into_vec();
            self.responses = VecDeque::from_vec(list);
        }
        Some(response)
    }
}
