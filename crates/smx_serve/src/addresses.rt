//! Who is where, and what is under way for whom.

use crate::mail::Mail;
use smx_routes::Routes;
use smx_slots::{AccountLimits, Hints, Ledger, Roll};
use std::alloc::{AllocError, Global};

/// Which client has which slot, which prefixes go to whom, whose requests are under way, whose messages
/// aren't answered, and on which lanes something waits for whom. It takes the memory for all slots at
/// once; the routes grow, and the ledger may.
#[derive(Drop)]
pub(crate) struct Addresses {
    pub roll: Roll,
    pub routes: Routes,
    pub ledger: Ledger,
    pub mail: Mail,
    pub hints: Hints,
}

impl Addresses {
    // No client, so many slots and lanes, and accounts with these limits.
    pub fn new(
        alloc: Global,
        slots: usize,
        lanes: usize,
        limits: &[AccountLimits],
    ) -> Result<Addresses, AllocError> {
        Ok(Addresses {
            roll: Roll::new(alloc, slots)?,
            routes: Routes::new(alloc),
            ledger: Ledger::new(alloc, limits)?,
            mail: Mail::new(alloc, lanes, slots)?,
            hints: Hints::new(alloc, slots, lanes)?,
        })
    }
}
