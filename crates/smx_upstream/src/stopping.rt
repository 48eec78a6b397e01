//! The end of a session in order.
ghost use Rattle.std.specs.Prelude.{◌≡◌, ◌≤◌, ◌++◌, [], ◌∷◌, Option, Err, IfOk, OnOk, OnErr};
ghost use Rattle.smx_link.specs.Wiring.{spellings};
ghost use Rattle.smx_session.specs.Moments.{is_bound, farewell, state_after_stop};
ghost use Rattle.smx_upstream.specs.declared.event.Event.TheVariants.{Unbound};
ghost use Rattle.smx_turns.specs.Worth.{those};

use crate::event::Event;
use crate::turning::is_bound;
use crate::worker::{UpstreamWorker, send};
use smx_link::Link;
use smx_pdu::Pdu;
use smx_turns::Fault;
use std::snapshot::Snapshot;

impl<L: Link + Drop> UpstreamWorker<L> {
    // Makes the session's unbind. True where it was bound.
    fn unbind(&mut self) -> bool
        requires room { 65536 ≤ self.old.wire.room }
        ensures bound { result ≡ is_bound self.old.stand.session.state }
        ensures event { (unbind : Snapshot (Option Pdu))
            × (unbind.value ≡ farewell self.old.stand.session.state)
            × (self.new.events ≡ self.old.events ++ Unbound unbind ∷ []) }
        ensures said { self.new.wire.said
            ≡ self.old.wire.said ++ those (farewell self.old.stand.session.state) }
        ensures unsent { self.new.wire.unsent ≡ self.old.wire.unsent
            ++ spellings (those (farewell self.old.stand.session.state)) }
        ensures state { self.new.stand.session
            ≡ record self.old.stand.session { state = state_after_stop self.old.stand.session.state } }
        ensures same { self.new ≡ record self.old {
          wire = record self.old.wire {
            said = self.new.wire.said;
            unsent = self.new.wire.unsent;
            room = self.new.wire.room;
          };
          stand = record self.old.stand { session = self.new.stand.session };
          events = self.new.events;
        } }
    {
        let bound = is_bound(self.session.state());
        let unbind = self.session.stop();
        let event = Event::Unbound(Snapshot::of(&unbind));
        send(&unbind, &mut self.wire);
        self.events = self.events.and(&event);
        bound
    }

    /// Ends the session in order: where it is bound its unbind (SMPP 3.4, section 4.2) is to be
    /// written, and nothing is taken or put into a box from then on. True where it was bound. The
    /// turns that follow write what waits and decide what comes, until the centre has answered or
    /// its link has ended. The fault is want of memory, and leaves all as it was.
    pub fn stop(&mut self) -> Result<bool, Fault>
        ensures bound { IfOk result (λ bound. bound ≡ is_bound self.old.stand.session.state) }
        ensures event { OnOk result ((unbind : Snapshot (Option Pdu))
            × (unbind.value ≡ farewell self.old.stand.session.state)
            × (self.new.events ≡ self.old.events ++ Unbound unbind ∷ [])) }
        ensures said { OnOk result (self.new.wire.said
            ≡ self.old.wire.said ++ those (farewell self.old.stand.session.state)) }
        ensures unsent { OnOk result (self.new.wire.unsent ≡ self.old.wire.unsent
            ++ spellings (those (farewell self.old.stand.session.state))) }
        ensures state { OnOk result (self.new.stand.session
            ≡ record self.old.stand.session { state = state_after_stop self.old.stand.session.state }) }
        ensures same { self.new ≡ record self.old {
          wire = record self.old.wire {
            said = self.new.wire.said;
            unsent = self.new.wire.unsent;
            room = self.new.wire.room;
          };
          stand = record self.old.stand { session = self.new.stand.session };
          events = self.new.events;
        } }
        ensures err { OnErr result ((result ≡ Err Fault.NoMemory) × (self.new ≡ record self.old {
          wire = record self.old.wire { room = self.new.wire.room };
        })) }
    {
        self.make_room()?;
        Ok(self.unbind())
    }
}
