//! What an account may have.
ghost use Rattle.std.specs.Prelude.{◌≡◌, ◌<◌, ◌+◌, ℕ, true, false};
ghost use Rattle.smx_slots.specs.Ledger.{is_below, greatest_count};

/// What an account may have at a time: so many bound clients, and so many requests of theirs that were
/// accepted and not yet answered or failed. None: any number.
#[derive(Clone, Copy, Debug, PartialEq, Eq)]
pub struct AccountLimits {
    pub binds: Option<u32>,
    pub requests: Option<u32>,
}

// Whether one more is within the limit.
pub(crate) fn is_below(limit: Option<u32>, count: u64) -> bool
    ensures below { result ≡ is_below limit count }
    ensures room { result ≡ true → count < greatest_count }
{
    match limit {
        Some(most) => count < u64::from(most),
        None => count < u64::MAX,
    }
}

// How many more are within the limit, beside so many others.
pub(crate) fn spare_of(limit: Option<u32>, count: u64, others: u64) -> u64
    ensures few { (k : ℕ) → k < result → others + k < greatest_count }
    ensures each { (k : ℕ) → k < result → is_below limit (count + (others + k)) ≡ true }
    ensures last { is_below limit (count + (others + result)) ≡ false }
{
    let most = match limit {
        Some(most) => u64::from(most),
        None => u64::MAX,
    };
    most.saturating_sub(count).saturating_sub(others)
}
