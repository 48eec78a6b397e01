//! What the workers on both sides of the proxy turn on: the gate that lets them go on, the
//! directory of clients, how a turn ends, and the list of what a turn did.
#![tactic(auto)]

mod directory;
mod end;
mod gate;
mod mark;
mod mo_item;
mod outcome;
mod put;
mod step;
mod wire;

pub use directory::{Directory, Place, Query};
pub use end::{End, Fault, RunEnd, TurnEnd, last_end};
pub use gate::{Gate, Party, Point, Question};
pub use mark::Mark;
pub use mo_item::MoItem;
pub use outcome::Outcome;
pub use put::{is_full_at, put_at};
pub use step::{Deed, Log, Step, ask};
pub use wire::{is_end, is_memory};
