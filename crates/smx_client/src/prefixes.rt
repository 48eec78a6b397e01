//! How a client that binds is entered into the directory.
ghost use Rattle.std.specs.Prelude.{◌≡◌, ℕ};
ghost use Rattle.smx_client.specs.Prefixes.{Adds, account_prefixes};

use crate::desk::Desk;
use smx_routes::RouteFault;
use smx_turns::Directory;
use std::sync::Wait;

// Adds the prefixes in order, up to the first for which there is no memory. True where all were
// added.
pub(crate) fn add_all<D: Directory, R: Wait>(
    rt: &R,
    directory: &mut D,
    prefixes: &[Vec<u8>],
    client: u64,
) -> bool
    ensures { Adds client prefixes.now (D.queries directory.old) (D.queries directory.new) result }
{
    let Some((first, rest)) = prefixes.split_first() else {
        return true;
    };
    if let Err(RouteFault::NoMemory) = directory.add(rt, first.as_slice(), client) {
        return false;
    }
    add_all(rt, directory, rest, client)
}

// The prefixes of an account.
pub(crate) fn prefixes_at(desk: &Desk, account: usize) -> &[Vec<u8>]
    ensures { result.now ≡ account_prefixes desk.now.prefixes.items account }
{
    match desk.prefixes.get(account) {
        Some(prefixes) => prefixes.as_slice(),
        None => &[],
    }
}
