//! The lines that a proxy says, each as the table *Lines* of docs/OPERATING.md has it.
mod clients;
mod orders;
mod told;
mod upstreams;
mod waiting;
