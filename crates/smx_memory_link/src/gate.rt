//! Gates that only look.
use smx_trace::Trace;
use smx_turns::{Gate, Party, Point, Question};
use std::sync::atomic::{AtomicBool, Ordering};

/// A gate that lets all pass but, before its flag is set, the submit of a request.
#[derive(Drop)]
pub struct FlagGate<'a> {
    flag: &'a AtomicBool,
    asked: Trace<Question>,
    told: Trace<Party>,
}

impl<'a> FlagGate<'a> {
    /// A gate with this flag. Where the flag is set from the start, all passes.
    pub fn new(flag: &'a AtomicBool) -> FlagGate<'a> {
        FlagGate {
            flag,
            asked: Trace::new(),
            told: Trace::new(),
        }
    }
}

impl Gate for FlagGate<'_> {
    ghost asked = { λ g. g.asked };

    ghost told = { λ g. g.told };

    fn at(&mut self, point: Point, turn: u64) -> bool {
        let answer = point != Point::Submitting || self.flag.load(Ordering::SeqCst);
        self.asked = self.asked.and(&Question {
            point,
            turn,
            answer,
        });
        answer
    }

    fn ready(&mut self, party: Party) {
        self.told = self.told.and(&party);
    }
}
