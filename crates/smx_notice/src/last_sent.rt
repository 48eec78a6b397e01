//! The request that went out last over a link, as lines name it.

use smx_pdu::command::{CANCEL_SM, DATA_SM, QUERY_SM, REPLACE_SM, SUBMIT_MULTI, SUBMIT_SM};
use std::fmt;

/// A request's command, and its client: its number, and the system_id of its account while it is
/// connected.
#[derive(Clone, Copy, Debug)]
pub struct LastSent<'a> {
    pub command: u32,
    pub client: u64,
    pub system_id: Option<&'a str>,
}

// The name of a command that is forwarded (SMPP 3.4, section 5.1.2.1).
fn name_of(command: u32) -> &'static str {
    match command {
        SUBMIT_SM => "submit_sm",
        SUBMIT_MULTI => "submit_multi",
        QUERY_SM => "query_sm",
        CANCEL_SM => "cancel_sm",
        REPLACE_SM => "replace_sm",
        DATA_SM => "data_sm",
        _ => "a request",
    }
}

impl LastSent<'_> {
    /// The command's name.
    pub fn name(self) -> &'static str {
        name_of(self.command)
    }
}

impl fmt::Display for LastSent<'_> {
    fn fmt<W: fmt::Write>(&self, f: &mut fmt::Formatter<W>) -> fmt::Result {
        let LastSent {
            command,
            client,
            system_id,
        } = *self;
        write!(f, "{} of client {client}", name_of(command))?;
        match system_id {
            Some(system_id) => write!(f, " {system_id}"),
            None => Ok(()),
        }
    }
}
