//! One step of a turn more: where the turn stands then, and what it changed.
ghost use Rattle.std.specs.Prelude.{◌≡◌, ℕ, Bool, ◌+◌, ◌++◌, ◌∷◌, [], List, Result};
ghost use Rattle.smx_link.specs.declared.link.Polled.{Polled};
ghost use Rattle.smx_link.specs.declared.link.LinkFault.{LinkFault};
ghost use Rattle.smx_link.specs.Links.{fault_count};
ghost use Rattle.smx_turns.specs.declared.directory.Query.{Query};
ghost use Rattle.smx_turns.specs.declared.step.Step.TheVariants as step;
ghost use Rattle.smx_turns.specs.Marks.{is_quiet_mark};
ghost use Rattle.smx_turns.specs.Scenes.{Scene, scene, Marks, Happens};
ghost use Rattle.smx_client.specs.Events.{is_quiet_event, worth};
ghost use Rattle.smx_client.specs.Parts.{Parts, Does};
ghost use Rattle.smx_client.specs.Table.{Before, Phase, phase_of, go};
ghost use Rattle.smx_client.specs.Turns.{May, Leads};

use crate::event::Event;
use smx_link::{LinkFault, Polled};
use smx_trace::Trace;
use smx_turns::{Gate, Log, Mark, Point, Step};

// It came to this. The caller says whether nothing came of it.
pub(crate) fn mark(log: &mut Log<Event>, mark: Mark, quiet: bool)
    requires quiet { quiet ≡ is_quiet_mark mark }
    ensures phase { (t : Before) (p : Phase) → phase_of t log.old ≡ p
        → phase_of t log.new ≡ go t p (step.Marked mark) }
    ensures leads { (n : ℕ) (a b : Scene Parts Event) → May a (step.Marked mark) b
        → Marks a mark b → Leads n a log.old b log.new }
{
    log.push(&Step::Marked(mark), quiet);
}

// It read from the link, which answered so.
pub(crate) fn reading(log: &mut Log<Event>, answer: Result<Polled, LinkFault>)
    ensures phase { (t : Before) (p : Phase) → phase_of t log.old ≡ p
        → phase_of t log.new ≡ go t p (step.Read answer) }
    ensures leads { (n : ℕ) (a b : Scene Parts Event)
        → b ≡ record a {
          polls = a.polls ++ answer ∷ [];
          failures = a.failures + fault_count answer;
        }
        → Leads n a log.old b log.new }
{
    let quiet = !matches!(answer, Ok(Polled::Octets(_)));
    log.push(&Step::Read(answer), quiet);
}

// It did this, and tells so. The caller says whether nothing came of it.
pub(crate) fn note(events: &mut Trace<Event>, log: &mut Log<Event>, event: Event, quiet: bool)
    requires quiet { quiet ≡ is_quiet_event event }
    ensures events { events.new ≡ events.old ++ event ∷ [] }
    ensures phase { (t : Before) (p : Phase) → phase_of t log.old ≡ p
        → phase_of t log.new ≡ go t p (step.Did event) }
    ensures leads { (n : ℕ) (a b : Scene Parts Event) → May a (step.Did event) b
        → Happens Does worth a event b → Leads n a log.old b log.new }
{
    *events = events.and(&event);
    log.push(&Step::Did(event), quiet);
}

// It asks the gate.
#[inline(always)]
pub(crate) fn ask<G: Gate>(log: &mut Log<Event>, gate: &mut G, point: Point, turn: u64) -> bool
    ensures phase { (t : Before) (p : Phase) → phase_of t log.old ≡ p
        → phase_of t log.new ≡ go t p (step.Asked point result) }
    ensures leads { (queries : List Query) (events : List Event) (parts : Parts)
        (unsent offered : List ℕ) (polls : List (Result Polled LinkFault)) (failures : ℕ)
        → Leads turn
        (scene (G.asked gate.old) (G.told gate.old) queries events parts unsent offered polls
        failures)
        log.old
        (scene (G.asked gate.new) (G.told gate.new) queries events parts unsent offered polls
        failures)
        log.new }
{
    let answer = gate.at(point, turn);
    log.push(&Step::Asked(point, answer), true);
    answer
}
