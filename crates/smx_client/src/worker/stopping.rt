//! The end of a session in order.
ghost use Rattle.std.specs.Prelude.{◌≡◌, ◌≤◌, ◌++◌, [], ◌∷◌, Option, is_some, Err, IfOk, OnOk, OnErr};
ghost use Rattle.smx_link.specs.Wiring.{spellings};
ghost use Rattle.smx_session.specs.ClientMoments.{client_farewell, client_state_after_stop};
ghost use Rattle.smx_client.specs.declared.event.Event.TheVariants.{Unbound};
ghost use Rattle.smx_turns.specs.Worth.{those};

use super::ClientWorker;
use crate::event::Event;
use crate::saying::say_some;
use smx_link::Link;
use smx_pdu::Pdu;
use smx_turns::Fault;
use std::snapshot::Snapshot;

impl<'d, L: Link + Drop> ClientWorker<'d, L> {
    // Makes the session's unbind. True where its client was bound.
    fn unbind(&mut self) -> bool
        requires room { 65536 ≤ self.old.wire.room }
        ensures bound { result ≡ is_some (client_farewell self.old.session.state) }
        ensures event { (unbind : Snapshot (Option Pdu))
            × (unbind.value ≡ client_farewell self.old.session.state)
            × (self.new.events ≡ self.old.events ++ Unbound unbind ∷ []) }
        ensures same { self.new ≡ record self.old {
          session = record self.old.session {
            state = client_state_after_stop self.old.session.state;
          };
          wire = record self.old.wire {
            said = self.old.wire.said ++ those (client_farewell self.old.session.state);
            unsent = self.old.wire.unsent
                ++ spellings (those (client_farewell self.old.session.state));
            room = self.new.wire.room;
          };
          events = self.new.events;
        } }
    {
        let unbind = self.session.stop();
        let event = Event::Unbound(Snapshot::of(&unbind));
        say_some(&mut self.wire, &unbind);
        self.events = self.events.and(&event);
        unbind.is_some()
    }

    /// Ends the session in order, between two turns: where its client is bound the proxy's unbind
    /// (SMPP 3.4, section 4.2) is to be written, and the client's requests are answered with the
    /// status 0x14 (ESME_RMSGQFUL) from then on. True where it was bound. The turns that follow go
    /// on until the client has answered or its link has ended. The fault is want of memory, and
    /// leaves all as it was.
    pub fn stop(&mut self) -> Result<bool, Fault>
        ensures bound { IfOk result (λ bound.
            bound ≡ is_some (client_farewell self.old.session.state)) }
        ensures event { OnOk result ((unbind : Snapshot (Option Pdu))
            × (unbind.value ≡ client_farewell self.old.session.state)
            × (self.new.events ≡ self.old.events ++ Unbound unbind ∷ [])) }
        ensures said { OnOk result (self.new.wire.said
            ≡ self.old.wire.said ++ those (client_farewell self.old.session.state)) }
        ensures unsent { OnOk result (self.new.wire.unsent ≡ self.old.wire.unsent
            ++ spellings (those (client_farewell self.old.session.state))) }
        ensures state { OnOk result (self.new.session ≡ record self.old.session {
          state = client_state_after_stop self.old.session.state;
        }) }
        ensures same { self.new ≡ record self.old {
          session = self.new.session;
          wire = record self.old.wire {
            said = self.new.wire.said;
            unsent = self.new.wire.unsent;
            room = self.new.wire.room;
          };
          events = self.new.events;
        } }
        ensures err { OnErr result ((result ≡ Err Fault.NoMemory) × (self.new ≡ record self.old {
          wire = record self.old.wire { room = self.new.wire.room };
        })) }
    {
        self.make_room()?;
        Ok(self.unbind())
    }
}
