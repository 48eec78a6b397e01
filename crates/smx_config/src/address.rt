//! Addresses where one listens, or to which one connects.
ghost use Rattle.std.specs.Prelude.{◌≡◌};
ghost use Rattle.std.specs.List.{list_all};
ghost use Rattle.std.specs.Char.{is_ascii_digit};
ghost use Rattle.smx_config.specs.Address.{is_address, is_bracketed_address, is_host, is_plain_address, is_port, is_port_behind_colon, may_be_in_host};

// Whether an octet may stand in a host.
fn may_be_in_host(octet: u8) -> bool
    ensures { result ≡ may_be_in_host octet }
{
    32 < octet
        && octet < 127
        && !(octet == b'/' || octet == b'@' || (octet == b'[' || octet == b']'))
}

fn are_of_host(octets: &[u8]) -> bool
    ensures { result ≡ list_all may_be_in_host octets.now }
{
    octets.iter().all(|octet| may_be_in_host(*octet))
}

fn is_host(text: &str) -> bool
    ensures { result ≡ is_host text.now }
{
    !text.is_empty() && are_of_host(text.as_bytes())
}

fn are_digits(octets: &[u8]) -> bool
    ensures { result ≡ list_all is_ascii_digit octets.now }
{
    octets.iter().all(|octet| octet.is_ascii_digit())
}

fn is_port(text: &str) -> bool
    ensures { result ≡ is_port text.now }
{
    are_digits(text.as_bytes()) && text.parse::<u16>().is_ok()
}

fn is_plain_address(text: &str) -> bool
    ensures { result ≡ is_plain_address text.now }
{
    match text.split_once(':') {
        Some((host, port)) => is_host(host) && is_port(port),
        None => false,
    }
}

fn is_port_behind_colon(text: &str) -> bool
    ensures { result ≡ is_port_behind_colon text.now }
{
    match text.strip_prefix(':') {
        Some(port) => is_port(port),
        None => false,
    }
}

fn is_bracketed_address(text: &str) -> bool
    ensures { result ≡ is_bracketed_address text.now }
{
    match text.split_once(']') {
        Some((host, rest)) => is_host(host) && is_port_behind_colon(rest),
        None => false,
    }
}

/// Whether a text is an address: a name or an IPv4 address, or an IPv6 address in brackets, and behind a
/// colon a port from 0 to 65,535, as `smsc.example:2775` or `[::1]:2775`. The host's octets are visible ones
/// of ASCII, but no slash, no `@` and no bracket; whether there is such a host isn't asked.
pub fn is_address(text: &str) -> bool
    ensures { result ≡ is_address text.now }
{
    match text.strip_prefix('[') {
        Some(rest) => is_bracketed_address(rest),
        None => is_plain_address(text),
    }
}
