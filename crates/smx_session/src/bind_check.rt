//! The checks of a client's bind (SMPP 3.4, section 4.1).
ghost use Rattle.std.specs.Prelude.{◌≡◌, ◌∷◌, ◌++◌, [], codes, position, IfOk};
ghost use Rattle.smx_bodies.specs.Reading.{after_parts};
ghost use Rattle.smx_pdu.specs.Reading.{said_by, bind_at, Gives};
ghost use Rattle.smx_session.specs.Binds.{account_of, bind_answer, check_account, check_bind, check_lengths, wide_bind};

use crate::account::Account;
use smx_bodies::{Part, after_parts};
use smx_pdu::status::{ESME_RINVCMDLEN, ESME_RINVPASWD, ESME_RINVSYSID};
use smx_pdu::{Bind, Body, BodyFault, MAX_BODY, read_bind};
use std::alloc::{AllocError, Global};

/// The version of SMPP that the proxy speaks.
const VERSION: u8 = 0x34;

// The greatest length of a system_id, its ending 0 counted.
const SYSTEM_ID: usize = 16;

// More octets than a body has.
const ANY_LENGTH: usize = MAX_BODY + 1;

// A bind's fields, but for the limits of its system_id and password.
const WIDE_BIND: [Part; 7] = [
    Part::Text(ANY_LENGTH),
    Part::Text(ANY_LENGTH),
    Part::Text(13),
    Part::Octet,
    Part::Octet,
    Part::Octet,
    Part::Text(41),
];

/// What the checks of a bind say.
#[derive(Clone, Copy, Debug, PartialEq, Eq)]
pub enum Checked {
    /// The bind is refused with this status.
    Refused(u32),
    Granted {
        /// The account's index.
        account: usize,
        /// The interface_version that the client speaks.
        version: u8,
    },
}

// The first account with exactly this system_id.
fn account_of(accounts: &[Account], system_id: &[u8]) -> Option<usize>
    ensures { result ≡ account_of accounts.now system_id.now }
{
    accounts
        .iter()
        .position(|account| account.system_id.as_slice() == system_id)
}

// Checks what a bind says against the accounts.
fn check_account(accounts: &[Account], bind: &Bind<'_>) -> Checked
    ensures { result ≡ check_account accounts.now (said_by bind.now)
        (account_of accounts.now bind.now.system_id.now) }
{
    match account_of(accounts, bind.system_id) {
        None => Checked::Refused(ESME_RINVSYSID),
        Some(account) => {
            if accounts[account].has_password(bind.password) {
                Checked::Granted {
                    account,
                    version: bind.interface_version,
                }
            } else {
                Checked::Refused(ESME_RINVPASWD)
            }
        }
    }
}

// The bind that a body begins with.
fn bind_of(body: &[u8]) -> Result<Bind<'_>, BodyFault>
    ensures { Gives said_by result (bind_at body.now) }
{
    read_bind(body)
}

// Which text of a bind is too long, in a body that isn't read.
fn check_lengths(body: &[u8]) -> Checked
    ensures { result ≡ check_lengths body.now (after_parts wide_bind body.now) }
{
    if after_parts(&WIDE_BIND, body).is_err() {
        return Checked::Refused(ESME_RINVCMDLEN);
    }
    match after_parts(&[Part::Text(SYSTEM_ID)], body) {
        Ok(_) => Checked::Refused(ESME_RINVPASWD),
        Err(_) => Checked::Refused(ESME_RINVSYSID),
    }
}

// Checks a bind's body against the accounts.
pub(crate) fn check_bind(accounts: &[Account], body: &[u8]) -> Checked
    ensures { result ≡ check_bind accounts.now body.now }
{
    match bind_of(body) {
        Ok(bind) => check_account(accounts, &bind),
        Err(_) => check_lengths(body),
    }
}

// The body of the answer to a bind that succeeds: the system_id `smx`, and sc_interface_version for
// a client that speaks SMPP 3.4 or later.
pub(crate) fn bind_answer(alloc: Global, version: u8) -> Result<Body, AllocError>
    ensures { IfOk result (λ b. b ≡ bind_answer version) }
{
    let octets = if version >= VERSION {
        Vec::from_slice(alloc, b"smx\0\x02\x10\0\x01\x34")?
    } else {
        Vec::from_slice(alloc, b"smx\0")?
    };
    Ok(Body::short(octets))
}
