//! The values of command_status (SMPP 3.4, section 5.1.3).

use std::fmt;

/// No error.
pub const ESME_ROK: u32 = 0x00;

/// The message's length is invalid.
pub const ESME_RINVMSGLEN: u32 = 0x01;

/// The command_length is invalid, or the body can't be read.
pub const ESME_RINVCMDLEN: u32 = 0x02;

/// The command_id is unknown.
pub const ESME_RINVCMDID: u32 = 0x03;

/// The command isn't allowed in this state or direction.
pub const ESME_RINVBNDSTS: u32 = 0x04;

/// The ESME is bound already.
pub const ESME_RALYBND: u32 = 0x05;

/// The priority_flag is invalid.
pub const ESME_RINVPRTFLG: u32 = 0x06;

/// The registered_delivery is invalid.
pub const ESME_RINVREGDLVFLG: u32 = 0x07;

/// System error.
pub const ESME_RSYSERR: u32 = 0x08;

/// The source address is invalid.
pub const ESME_RINVSRCADR: u32 = 0x0A;

/// The destination address is invalid.
pub const ESME_RINVDSTADR: u32 = 0x0B;

/// The message_id is invalid.
pub const ESME_RINVMSGID: u32 = 0x0C;

/// The bind failed.
pub const ESME_RBINDFAIL: u32 = 0x0D;

/// The password is invalid.
pub const ESME_RINVPASWD: u32 = 0x0E;

/// The system_id is invalid.
pub const ESME_RINVSYSID: u32 = 0x0F;

/// A cancel_sm failed.
pub const ESME_RCANCELFAIL: u32 = 0x11;

/// A replace_sm failed.
pub const ESME_RREPLACEFAIL: u32 = 0x13;

/// A message queue is full.
pub const ESME_RMSGQFUL: u32 = 0x14;

/// The service_type is invalid.
pub const ESME_RINVSERTYP: u32 = 0x15;

/// The number_of_dests is invalid.
pub const ESME_RINVNUMDESTS: u32 = 0x33;

/// The name of a distribution list is invalid.
pub const ESME_RINVDLNAME: u32 = 0x34;

/// The dest_flag of a submit_multi is invalid.
pub const ESME_RINVDESTFLAG: u32 = 0x40;

/// A submit with replace_if_present is invalid.
pub const ESME_RINVSUBREP: u32 = 0x42;

/// The esm_class is invalid.
pub const ESME_RINVESMCLASS: u32 = 0x43;

/// Nothing can be submitted to the distribution list.
pub const ESME_RCNTSUBDL: u32 = 0x44;

/// A submit_sm or submit_multi failed.
pub const ESME_RSUBMITFAIL: u32 = 0x45;

/// The source_addr_ton is invalid.
pub const ESME_RINVSRCTON: u32 = 0x48;

/// The source_addr_npi is invalid.
pub const ESME_RINVSRCNPI: u32 = 0x49;

/// The dest_addr_ton is invalid.
pub const ESME_RINVDSTTON: u32 = 0x50;

/// The dest_addr_npi is invalid.
pub const ESME_RINVDSTNPI: u32 = 0x51;

/// The system_type is invalid.
pub const ESME_RINVSYSTYP: u32 = 0x53;

/// The replace_if_present_flag is invalid.
pub const ESME_RINVREPFLAG: u32 = 0x54;

/// The number of messages is invalid.
pub const ESME_RINVNUMMSGS: u32 = 0x55;

/// The ESME sends more than it may.
pub const ESME_RTHROTTLED: u32 = 0x58;

/// The schedule_delivery_time is invalid.
pub const ESME_RINVSCHED: u32 = 0x61;

/// The validity_period is invalid.
pub const ESME_RINVEXPIRY: u32 = 0x62;

/// The predefined message isn't there.
pub const ESME_RINVDFTMSGID: u32 = 0x63;

/// The ESME that a message is for can't be reached, for now.
pub const ESME_RX_T_APPN: u32 = 0x64;

/// The ESME that a message is for can't take it, now or later.
pub const ESME_RX_P_APPN: u32 = 0x65;

/// The ESME that a message is for rejects it.
pub const ESME_RX_R_APPN: u32 = 0x66;

/// A query_sm failed.
pub const ESME_RQUERYFAIL: u32 = 0x67;

/// The optional parameters can't be read.
pub const ESME_RINVOPTPARSTREAM: u32 = 0xC0;

/// An optional parameter isn't allowed.
pub const ESME_ROPTPARNOTALLWD: u32 = 0xC1;

/// The length of a parameter is invalid.
pub const ESME_RINVPARLEN: u32 = 0xC2;

/// An optional parameter is missing.
pub const ESME_RMISSINGOPTPARAM: u32 = 0xC3;

/// The value of an optional parameter is invalid.
pub const ESME_RINVOPTPARAMVAL: u32 = 0xC4;

/// The delivery of a data_sm failed.
pub const ESME_RDELIVERYFAILURE: u32 = 0xFE;

/// Unknown error.
pub const ESME_RUNKNOWNERR: u32 = 0xFF;

// The name of the constant, of these, that has the number.
macro_rules! name_among {
    ($number:expr; $($name:ident)*) => {
        match $number {
            $($name => Some(stringify!($name)),)*
            _ => None,
        }
    };
}

fn name_of(number: u32) -> Option<&'static str> {
    name_among! { number;
        ESME_ROK ESME_RINVMSGLEN ESME_RINVCMDLEN ESME_RINVCMDID ESME_RINVBNDSTS ESME_RALYBND
        ESME_RINVPRTFLG ESME_RINVREGDLVFLG ESME_RSYSERR ESME_RINVSRCADR ESME_RINVDSTADR
        ESME_RINVMSGID ESME_RBINDFAIL ESME_RINVPASWD ESME_RINVSYSID ESME_RCANCELFAIL
        ESME_RREPLACEFAIL ESME_RMSGQFUL ESME_RINVSERTYP ESME_RINVNUMDESTS ESME_RINVDLNAME
        ESME_RINVDESTFLAG ESME_RINVSUBREP ESME_RINVESMCLASS ESME_RCNTSUBDL ESME_RSUBMITFAIL
        ESME_RINVSRCTON ESME_RINVSRCNPI ESME_RINVDSTTON ESME_RINVDSTNPI ESME_RINVSYSTYP
        ESME_RINVREPFLAG ESME_RINVNUMMSGS ESME_RTHROTTLED ESME_RINVSCHED ESME_RINVEXPIRY
        ESME_RINVDFTMSGID ESME_RX_T_APPN ESME_RX_P_APPN ESME_RX_R_APPN ESME_RQUERYFAIL
        ESME_RINVOPTPARSTREAM ESME_ROPTPARNOTALLWD ESME_RINVPARLEN ESME_RMISSINGOPTPARAM
        ESME_RINVOPTPARAMVAL ESME_RDELIVERYFAILURE ESME_RUNKNOWNERR
    }
}

/// A command_status as it is printed: its number with at least two hexadecimal digits, and its name,
/// as `0x14 ESME_RMSGQFUL`. One that the table of section 5.1.3 doesn't have, as a centre's own from
/// 0x400 on, is its number alone.
#[derive(Clone, Copy, Debug, PartialEq, Eq)]
pub struct Status(pub u32);

impl fmt::Display for Status {
    fn fmt<W: fmt::Write>(&self, f: &mut fmt::Formatter<W>) -> fmt::Result {
        let number = self.0;
        match name_of(number) {
            Some(name) => write!(f, "0x{number:02X} {name}"),
            None => write!(f, "0x{number:02X}"),
        }
    }
}
