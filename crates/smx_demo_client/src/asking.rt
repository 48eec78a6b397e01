//! A client's turns.
ghost use Rattle.std.specs.Prelude.{◌≤◌, IfOk};
ghost use Rattle.smx_pdu.specs.Fields.{IsText};

use crate::esme::Esme;
use smx_link::Link;
use smx_session::Account;
use std::alloc::{AllocError, Global};

/// Binds as a transceiver to this account (SMPP 3.4, section 4.1.5) and sends the submit_sm with
/// the numbers 1 to 10, each once the one before was answered; answers how many of the answers had
/// status 0. It reads and writes at most so many times, and ends earlier at a link's fault or end,
/// where the bind is refused, and after the last answer. Its link should wait a little where
/// nothing comes. Memory is taken for the PDUs alone.
pub fn ask<L: Link>(
    alloc: Global,
    link: &mut L,
    account: &Account,
    turns: u64,
) -> Result<u32, AllocError>
    requires system_id { IsText 16 account.now.system_id }
    requires password { IsText 9 account.now.password }
    ensures most { IfOk result (λ n. n ≤ 10) }
{
    let mut esme = Esme::new(alloc, account)?;
    for _ in 0..turns {
        if !esme.turn(link)? {
            break;
        }
    }
    Ok(esme.answered())
}
