//! What is said of the run as a whole.

use crate::count::{Count, requests};
use crate::ended::Ended;
use crate::facts::{Facts, Figures};
use crate::level::Level;
use crate::meter::Tally;
use crate::reason::Reason;
use smx_pdu::status::{ESME_RSUBMITFAIL, Status};
use thiserror::Error;

/// What becomes of the run, and of its lines.
#[derive(Clone, Copy, Debug, Error)]
pub enum RunNews<'a> {
    /// The program of this version serves.
    #[error("smx {0}")]
    Started(&'a str),
    #[error("stopping")]
    Stopping,
    /// No further request is taken, and so many are under way.
    #[error("draining, {} under way", requests(*.0))]
    Draining(u64),
    /// None is under way any more: of those so many were answered, and so many failed.
    #[error("drained: {answered} answered, {failed} with {}", Status(ESME_RSUBMITFAIL))]
    Drained { answered: u64, failed: u64 },
    /// How the run ended, where nobody stopped it.
    #[error("{0}")]
    Ended(Ended),
    /// So many lines of each kind came too often in a second, and weren't said.
    #[error("in the last second {0}")]
    LeftOut(Tally),
    /// So many lines weren't written, since nobody read those before them.
    #[error("{} left out", Count(*.0, "line", "lines"))]
    Unwritten(u64),
}

impl<'a> RunNews<'a> {
    pub(crate) fn facts(self) -> Facts<'a> {
        let none = Figures::none();
        match self {
            RunNews::Started(version) => {
                Facts::new(Level::Info, "started").because(Reason::Words(version))
            }
            RunNews::Stopping => Facts::new(Level::Info, "stopping"),
            RunNews::Draining(requests) => {
                Facts::new(Level::Info, "draining").counted(none.number("under_way", requests))
            }
            RunNews::Drained { answered, failed } => {
                let figures = none.number("answered", answered).number("failed", failed);
                Facts::new(Level::Info, "drained").counted(figures)
            }
            RunNews::Ended(ended) => {
                Facts::new(Level::Error, "ended").because(Reason::Run(ended))
            }
            RunNews::LeftOut(tally) => {
                Facts::new(Level::Warn, "left_out").counted(tally.figures())
            }
            RunNews::Unwritten(count) => {
                Facts::new(Level::Warn, "unwritten").counted(none.number("lines", count))
            }
        }
    }
}
