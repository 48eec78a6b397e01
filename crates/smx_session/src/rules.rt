//! What the account that a client is bound by may send.
ghost use Rattle.std.specs.Prelude.{◌≡◌};
ghost use Rattle.smx_session.specs.Rules.{all_commands, may_send, no_rules, rules_of, ruled_out, unreadable_status};

use crate::account::Account;
use smx_bodies::check_body;
use smx_pdu::Pdu;
use smx_pdu::command::{CANCEL_SM, DATA_SM, QUERY_SM, REPLACE_SM, SUBMIT_MULTI, SUBMIT_SM};
use smx_pdu::status::ESME_RINVCMDID;

/// Which of the requests that go to the centre a client may send.
#[derive(Clone, Copy, Debug, PartialEq, Eq)]
pub struct Commands {
    pub submit_sm: bool,
    pub submit_multi: bool,
    pub data_sm: bool,
    pub query_sm: bool,
    pub cancel_sm: bool,
    pub replace_sm: bool,
}

/// Which bodies its requests may have.
#[derive(Clone, Copy, Debug, PartialEq, Eq)]
pub enum Bodies {
    /// Any octets: none is read.
    Any,
    /// Those that [`smx_bodies::check_body`] can read.
    Readable,
}

/// What a client may send. What it may not is answered by its response, and goes to no lane.
#[derive(Clone, Copy, Debug, PartialEq, Eq)]
pub struct Rules {
    /// Another command is answered ESME_RINVCMDID 0x03.
    pub commands: Commands,
    /// Another body is answered ESME_RINVMSGLEN 0x01 or ESME_RINVCMDLEN 0x02.
    pub bodies: Bodies,
}

impl Commands {
    /// All six.
    pub fn all() -> Commands
        ensures { result ≡ all_commands }
    {
        Commands {
            submit_sm: true,
            submit_multi: true,
            data_sm: true,
            query_sm: true,
            cancel_sm: true,
            replace_sm: true,
        }
    }

    /// Whether this command is among them: no other than the six ever is.
    pub fn has(self, command: u32) -> bool
        ensures { result ≡ may_send self command }
    {
        match command {
            SUBMIT_SM => self.submit_sm,
            SUBMIT_MULTI => self.submit_multi,
            DATA_SM => self.data_sm,
            QUERY_SM => self.query_sm,
            CANCEL_SM => self.cancel_sm,
            REPLACE_SM => self.replace_sm,
            _ => false,
        }
    }
}

impl Rules {
    /// All commands, and any bodies.
    pub fn none() -> Rules
        ensures { result ≡ no_rules }
    {
        Rules {
            commands: Commands::all(),
            bodies: Bodies::Any,
        }
    }

    // The status that answers a request which they bar.
    #[inline(always)]
    #[tactic(auto, unfolding(crate::specs::Rules::ruled_out))]
    pub(crate) fn ruled_out(self, pdu: &Pdu) -> Option<u32>
        ensures { result ≡ ruled_out self pdu.now }
    {
        if !self.commands.has(pdu.command) {
            return Some(ESME_RINVCMDID);
        }
        unreadable_status(self.bodies, pdu)
    }
}

// The status that answers a request whose body isn't readable where it must be.
#[inline(always)]
fn unreadable_status(bodies: Bodies, pdu: &Pdu) -> Option<u32>
    ensures { result ≡ unreadable_status bodies pdu.now }
{
    match bodies {
        Bodies::Any => None,
        Bodies::Readable => match check_body(pdu.command, pdu.body.as_slice()) {
            Ok(()) => None,
            Err(unreadable) => Some(unreadable.status()),
        },
    }
}

// The rules of the account with this index, where there is one.
#[inline(always)]
pub(crate) fn rules_of(accounts: &[Account], account: Option<usize>) -> Rules
    ensures { result ≡ rules_of accounts.now account }
{
    let Some(account) = account else {
        return Rules::none();
    };
    match accounts.get(account) {
        Some(account) => account.rules,
        None => Rules::none(),
    }
}
