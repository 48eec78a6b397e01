//! The end of a client's worker.
ghost use Rattle.std.specs.Prelude.{◌≡◌, ◌++◌, ◌∷◌, [], Bool, None};
ghost use Rattle.smx_shared.specs.Views.{locks_of};
ghost use Rattle.smx_shared.specs.Leaving.{HasLeft};
ghost use Rattle.smx_turns.specs.declared.directory.Query.TheVariants as query;
ghost use Rattle.smx_routes.specs.Window.{Window};
ghost use Rattle.smx_client.specs.Leaving.{IsEmptied, is_answered, rest_of, Left as LeftBy};

use super::ClientWorker;
use crate::leaver::{Closed, Leaver};
use smx_link::Link;
use smx_shared::{Departed, Exchange, Port};
use smx_turns::Directory;
use std::sync::Wait;

// Leaves the lanes that aren't spent.
fn leave_lanes<R: Wait>(port: Port, at: &Exchange, rt: &R) -> Departed
    requires { locks_of port.fronts ≡ at.now }
    ensures { (all : Bool) × HasLeft all port result }
{
    match port.leave(at, rt) {
        Ok(departed) => departed,
        Err((departed, _)) => departed,
    }
}

impl<'d, L: Link + Drop> ClientWorker<'d, L> {
    /// Leaves the directory and the lanes, as far as they aren't spent, and answers the messages
    /// that the client never answered, with the status 0x64 (ESME_RX_T_APPN): first the answer that
    /// waits, then those that the client was sent, by rising number, then those in its box. What a
    /// return box refuses is dropped. It takes no memory.
    pub fn close<R: Wait, D: Directory>(self, at: &Exchange, rt: &R, directory: &mut D) -> Closed<L>
        requires locks { locks_of self.port.fronts ≡ at.now }
        ensures directory { D.queries directory.new
            ≡ D.queries directory.old ++ query.Removed self.entry.port.client ∷ [] }
        ensures retired { (all : Bool) × HasLeft all self.entry.port result.departed }
        ensures link { result.link ≡ self.entry.wire.link }
        ensures left { (last : Window) × (last.waiting ≡ []) × LeftBy
            (rest_of self.entry.parked self.entry.window self.entry.inbox
            self.entry.senders)
            result.closing
            (rest_of None last result.inbox result.senders.items) }
        ensures emptied { IsEmptied self.entry.inbox.front.queue.places result.closing }
        ensures answered { result.answered ≡ is_answered result.closing }
    {
        let ClientWorker {
            alloc,
            port,
            inbox,
            senders,
            window,
            wire,
            parked,
            ..
        } = self;
        directory.remove(rt, port.client());
        let departed = leave_lanes(port, at, rt);
        let mut leaver = Leaver::new(alloc, inbox, senders, window, parked);
        leaver.answer_all(rt);
        leaver.into_closed(wire.into_link(), departed)
    }
}
