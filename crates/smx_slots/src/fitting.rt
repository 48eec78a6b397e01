//! How many clients the system's descriptors leave room for.
ghost use Rattle.std.specs.Prelude.{◌≡◌, ◌≤◌, ◌+◌, ◌⊎◌};

/// Of so many clients those who fit beside so many other descriptors, where so many can be had: one at
/// least.
pub fn clients_that_fit(clients: usize, others: usize, found: usize) -> usize
    requires { 1 ≤ clients }
    ensures one { 1 ≤ result }
    ensures most { result ≤ clients }

    // The others have theirs, whoever connects.
    ensures others { others + 1 ≤ found → others + result ≤ found }

    // All fit, or all descriptors are used.
    ensures used { (result ≡ clients) ⊎ (others + result ≡ found) ⊎ (found ≤ others) }
{
    found.saturating_sub(others).max(1).min(clients)
}
