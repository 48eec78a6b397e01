//! Why a line is bad, for a person.

use std::fmt;

/// What is wrong with a line, where that has no number.
#[derive(Clone, Copy, Debug, PartialEq, Eq)]
pub enum Wrong {
    /// A carriage return is in it.
    CarriageReturn,
    /// An octet is neither printable ASCII nor a space.
    Octet,
    /// A field is empty.
    Space,
    /// It begins with no command.
    Command,
    /// A client enters neither open nor bound in one of three ways.
    Kind,
    /// An octet stands among the hexadecimal digits.
    Digit,
    /// The last hexadecimal digit has no other beside it.
    Odd,
    /// A setting stands behind a line that is none.
    Late,
    /// There are as many accounts as there may be.
    Accounts,
    /// A prefix is for a client that gets no messages.
    Deaf,
    /// The client has the prefix.
    Known,
    /// There was no memory to find out.
    Unsaid,
}

/// Why a line is bad. What has a field's name has it as the script's page writes it.
#[derive(Clone, Copy, Debug, PartialEq, Eq)]
pub enum Reason {
    Plain(Wrong),
    /// The line has more or fewer fields than its command, which is written so.
    Form(&'static str),
    /// This field is no number.
    Number(&'static str),
    /// The number of this field is this, below the least that it may be.
    Low(&'static str, u64, u64),
    /// The number of this field is this, above the most that it may be.
    High(&'static str, u64, u32),
    /// This field is longer than so many octets.
    Long(&'static str, usize),
    /// There is no client with this number.
    Client(u64),
    /// There is no lane with this number: there are so many.
    Lane(u64, usize),
}

impl Wrong {
    fn words(self) -> &'static str {
        match self {
            Wrong::CarriageReturn => "a carriage return; lines end with a line feed alone",
            Wrong::Octet => "an octet that is neither printable ASCII nor a space",
            Wrong::Space => "a space too many; one space stands between two fields",
            Wrong::Command => "no such command",
            Wrong::Kind => "KIND is open, tx, rx or trx",
            Wrong::Digit => "HEX has an octet that is no hexadecimal digit",
            Wrong::Odd => "odd count of hexadecimal digits",
            Wrong::Late => "a setting; settings stand before the first other line",
            Wrong::Accounts => "one account too many, at most 256",
            Wrong::Deaf => "the client isn't bound as receiver or transceiver",
            Wrong::Known => "the client has this prefix",
            Wrong::Unsaid => "it is bad; there is no memory to find out why",
        }
    }
}

impl fmt::Display for Reason {
    fn fmt<W: fmt::Write>(&self, f: &mut fmt::Formatter<W>) -> fmt::Result {
        match *self {
            Reason::Plain(wrong) => f.write_str(wrong.words()),
            Reason::Form(form) => write!(f, "its form is {form}"),
            Reason::Number(field) => {
                write!(
                    f,
                    "{field} is no number below 2^64; digits alone, no leading zeros"
                )
            }
            Reason::Low(field, found, least) => write!(f, "{field} {found}, at least {least}"),
            Reason::High(field, found, most) => write!(f, "{field} {found}, at most {most}"),
            Reason::Long(field, most) => write!(f, "{field} is too long, at most {most} octets"),
            Reason::Client(client) => write!(f, "client {client} is unknown"),
            Reason::Lane(lane, count) => write!(f, "lane {lane} is unknown; lanes {count}, from 0"),
        }
    }
}
