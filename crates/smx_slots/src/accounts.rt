//! The accounts of a ledger under another configuration.
ghost use Rattle.std.specs.Prelude.{◌≡◌, ◌++◌, ◌≤◌, ◌<◌, [], ℕ, length, replicate, All, IfOk, OnOk, IfSome};
ghost use Rattle.smx_slots.specs.Ledger.{accounts, key_moved, with_account, with_accounts};

use crate::limits::AccountLimits;
use std::alloc::{AllocError, Global};

// The key of the first account that moved to this index.
fn key_moved(moves: &[Option<usize>], keys: &[usize], index: usize) -> Option<usize>
    ensures moved { result ≡ key_moved moves.now keys.now index }
    ensures among { (n : ℕ) → All (λ key. key < n) keys.now → IfSome result (λ key. key < n) }
{
    let count = moves.len().min(keys.len());
    for old in 0..count {
        if moves[old] == Some(index) {
            return Some(keys[old]);
        }
    }
    None
}

// Enters an account that has this key, or one of its own.
fn enter(
    keys: &mut Vec<usize>,
    table: &mut Vec<AccountLimits>,
    key: Option<usize>,
    limits: AccountLimits,
) -> Result<(), AllocError>
    requires { IfSome key (λ k. k < length table.old.items) }
    ensures entered { OnOk result (accounts keys.new.items table.new.items
        ≡ with_account key limits (accounts keys.old.items table.old.items)) }
    ensures more { OnOk result (length table.old.items ≤ length table.new.items) }
    ensures within { OnOk result (All (λ k. k < length table.old.items) keys.old.items
        → All (λ k. k < length table.new.items) keys.new.items) }
{
    if let Some(key) = key {
        keys.push(key)?;
        table[key] = limits;
        return Ok(());
    }
    keys.push(table.len())?;
    table.push(limits)?;
    Ok(())
}

/// The keys of the accounts with these limits, by index, and the limits by key.
pub(crate) fn accounts_of(
    alloc: Global,
    moves: &[Option<usize>],
    keys: &[usize],
    table: &[AccountLimits],
    limits: &[AccountLimits],
) -> Result<(Vec<usize>, Vec<AccountLimits>), AllocError>
    requires { All (λ key. key < length table.now) keys.now }
    ensures accounts { IfOk result (λ r. accounts r.0.items r.1.items
        ≡ with_accounts (key_moved moves.now keys.now) 0 limits.now (accounts [] table.now)) }
    ensures within { IfOk result (λ r. All (λ key. key < length r.1.items) r.0.items) }
    ensures more { IfOk result (λ r. length table.now ≤ length r.1.items) }
{
    let mut next = Vec::with_capacity(alloc, limits.len())?;
    let mut all: Vec<AccountLimits> = table.iter().copied().collect(alloc)?;
    for (index, limit) in limits.iter().enumerate() {
        let key = key_moved(moves, keys, index);
        enter(&mut next, &mut all, key, *limit)?;
    }
    Ok((next, all))
}

/// These counts and so many zeros.
pub(crate) fn with_zeros(alloc: Global, counts: &[u64], more: usize) -> Result<Vec<u64>, AllocError>
    ensures { IfOk result (λ r. r.items ≡ counts.now ++ replicate more 0) }
{
    let zeros: Vec<u64> = vec![in alloc; 0; more]?;
    counts.iter().chain(zeros.iter()).copied().collect(alloc)
}
