//! The ticket machine, and the lock by its example client.

mod counter;
mod machine;
