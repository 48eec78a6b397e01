//! What is true of a worker at every moment.
ghost use Rattle.std.specs.Prelude.{◌≡◌, ◌++◌, List, [], true};
ghost use mathlib.Core.List.{IsPrefix};
ghost use Rattle.smx_link.specs.Wiring.{spellings};
ghost use Rattle.smx_session.specs.declared.upstream_state.UpstreamState.TheVariants.{Binding};
ghost use Rattle.smx_turns.specs.Endings.{ending_of};
ghost use Rattle.smx_turns.specs.Runs.{Runs};
ghost use Rattle.smx_turns.specs.Wires.{IsBad};
ghost use Rattle.smx_turns.specs.Worth.{those, ins, outs, has_broken};
ghost use Rattle.smx_upstream.specs.Events.{worth};
ghost use Rattle.smx_upstream.specs.Standing.{Does};
ghost use Rattle.smx_upstream.specs.Laws.{KeepsTokens};
ghost use Rattle.smx_upstream.specs.Owing.{AreOwn, passed};
ghost use Rattle.smx_upstream.specs.declared.event.Event.{Event};

use crate::worker::UpstreamWorker;
use smx_link::Link;

/// The octets that the link gave are the spellings of the PDUs that were decided, at most one that
/// waits, and a rest; those that it took, followed by those that wait, are the spellings of the
/// PDUs that the events send. Each event did what its call did, one after another. Nothing but
/// writing is left to do just where one of them ended the session's work.
pub fn law<L: Link + Drop>(worker: &UpstreamWorker<L>)
    ensures given { L.given worker.now.wire.link
        ≡ L.given worker.now.wire.start
        ++ (spellings (ins worth worker.now.events ++ those worker.now.held) ++ worker.now.wire.rest) }
    ensures taken { L.taken worker.now.wire.link ++ worker.now.wire.unsent
        ≡ L.taken worker.now.wire.start ++ spellings (outs worth worker.now.events) }
    ensures runs { ∥ Runs Does worker.now.first worker.now.events worker.now.stand ∥₁ }
    ensures over { worker.now.ending ≡ ending_of worth worker.now.events }

    // A bad length is answered just where one stands behind the PDUs that were decided.
    ensures broke { has_broken worth worker.now.events ≡ true → IsBad worker.now.wire }

    // At each moment: of the answers of clients that went out, each answers a message of the centre
    // that this very link gave, under its number, and no message was answered twice.
    ensures own_answers { ∥ ((front : List Event) → IsPrefix front worker.now.events → AreOwn front) ∥₁ }

    // While the session binds nothing of clients is passed on.
    ensures binding { worker.now.stand.session.state ≡ Binding → ∥ passed worker.now.events ≡ [] ∥₁ }

    // The tap's notes and each sender's items, in order.
    ensures kept { ∥ KeepsTokens worker.now.first worker.now.events worker.now.stand ∥₁ }
{
    worker.wire.law();
}
