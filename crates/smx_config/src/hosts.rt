//! Hosts of addresses.

// The host and the port of an address.
fn parts(address: &str) -> (&str, &str) {
    address.rsplit_once(":").unwrap_or((address, ""))
}

/// The host of an address.
pub(crate) fn host(address: &str) -> &str {
    parts(address).0
}

// Whether a host is this machine's own, or, of one that listens, all addresses of it.
fn is_own(host: &str) -> bool {
    host == "localhost"
        || host == "0.0.0.0"
        || host == "[::]"
        || host == "[::1]"
        || host.starts_with("127.")
}

/// Whether a connection to the one address comes to whoever listens at the other.
pub(crate) fn leads_to(address: &str, listen: &str) -> bool {
    let ((host, port), (own, listening)) = (parts(address), parts(listen));
    port == listening && (host == own || is_own(host) && is_own(own))
}
