//! Which fields each command has.
ghost use Rattle.std.specs.Prelude.{◌≡◌};
ghost use Rattle.smx_bodies.specs.Layouts.{parts_of, has_parameters};

use smx_pdu::command::{CANCEL_SM, DATA_SM, QUERY_SM, REPLACE_SM, SUBMIT_MULTI, SUBMIT_SM};

/// A part of a body.
#[derive(Clone, Copy, Debug, PartialEq, Eq)]
pub enum Part {
    /// A C-Octet String, with the most octets that it has, its ending 0 among them.
    Text(usize),
    /// A number of one octet.
    Octet,
    /// number_of_dests, and so many dest_address.
    Destinations,
    /// sm_length, and so many octets of short_message.
    ShortMessage,
}

// The mandatory fields of a command.
pub(crate) fn parts_of(command: u32) -> &'static [Part]
    ensures { result.now ≡ parts_of command }
{
    use Part::{Destinations, Octet, ShortMessage, Text};
    match command {
        SUBMIT_SM => &[
            Text(6),
            Octet,
            Octet,
            Text(21),
            Octet,
            Octet,
            Text(21),
            Octet,
            Octet,
            Octet,
            Text(17),
            Text(17),
            Octet,
            Octet,
            Octet,
            Octet,
            ShortMessage,
        ],
        SUBMIT_MULTI => &[
            Text(6),
            Octet,
            Octet,
            Text(21),
            Destinations,
            Octet,
            Octet,
            Octet,
            Text(17),
            Text(17),
            Octet,
            Octet,
            Octet,
            Octet,
            ShortMessage,
        ],
        DATA_SM => &[
            Text(6),
            Octet,
            Octet,
            Text(65),
            Octet,
            Octet,
            Text(65),
            Octet,
            Octet,
            Octet,
        ],
        QUERY_SM => &[Text(65), Octet, Octet, Text(21)],
        CANCEL_SM => &[
            Text(6),
            Text(65),
            Octet,
            Octet,
            Text(21),
            Octet,
            Octet,
            Text(21),
        ],
        REPLACE_SM => &[
            Text(65),
            Octet,
            Octet,
            Text(21),
            Text(17),
            Text(17),
            Octet,
            Octet,
            ShortMessage,
        ],
        _ => &[],
    }
}

// Whether a command may have optional parameters.
pub(crate) fn has_parameters(command: u32) -> bool
    ensures { result ≡ has_parameters command }
{
    matches!(command, SUBMIT_SM | SUBMIT_MULTI | DATA_SM)
}
