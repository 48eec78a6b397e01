//! The gate that lets a worker go on.
ghost use Rattle.std.specs.Prelude.{◌≡◌, ◌++◌, ◌∷◌, [], List};
ghost use Rattle.smx_turns.specs.declared.gate.Question.{Question};
ghost use Rattle.smx_turns.specs.declared.gate.Party.{Party};

/// Where a turn asks its gate.
#[derive(Clone, Copy, Debug, PartialEq, Eq)]
pub enum Point {
    /// Before it reads.
    Reading,
    /// Before it binds its client by the account with this index.
    Binding(usize),
    /// Before it refuses a bind.
    Refusing,
    /// Before a request of its client goes on: whether one more may be under way.
    Admitting,
    /// Before it submits a request to a lane.
    Submitting,
    /// Before it collects responses from the lane with this index, until that has none to give. Where the
    /// answer is no it passes the lane over.
    Collecting(usize),
    /// Before it takes a request from a lane.
    Taking,
}

/// What a gate was asked, and its answer.
#[derive(Clone, Copy, Debug, PartialEq, Eq)]
pub struct Question {
    pub point: Point,
    /// The worker's turn, from 1.
    pub turn: u64,
    pub answer: bool,
}

/// For whom something waits now.
#[derive(Clone, Copy, Debug, PartialEq, Eq)]
pub enum Party {
    /// A request of the client with this number was settled on this lane: what tells the client so waits
    /// there, unless it has retired.
    Client { client: u64, lane: usize },
    /// A message waits in the box of this slot.
    Slot(usize),
    /// A request that was accepted waits on this lane.
    Lane(usize),
    /// An answer to a message waits in this lane's return box.
    Answer(usize),
}

/// What lets a worker go on, and whom a worker tells that something waits.
pub trait Gate {
    /// What it was asked, and its answers, in order.
    ghost asked: { Self → List Question };

    /// What it was told, in order.
    ghost told: { Self → List Party };

    /// Whether the worker goes on at this point of this turn.
    fn at(&mut self, point: Point, turn: u64) -> bool
        ensures asked { asked self.new ≡ asked self.old ++ record {
          point = point;
          turn = turn;
          answer = result;
        } ∷ [] }
        ensures told { told self.new ≡ told self.old };

    /// Something waits for this party now. It is no question.
    fn ready(&mut self, party: Party)
        ensures told { told self.new ≡ told self.old ++ party ∷ [] }
        ensures asked { asked self.new ≡ asked self.old };
}
