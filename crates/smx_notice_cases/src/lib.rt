//! The lines of the log: their words, each as the table *Lines* of docs/OPERATING.md has it, and their
//! forms. It has tests alone, in a crate of their own, so that none of them is proved twice.
#![tactic(auto)]

#[cfg(test)]
mod counts;
#[cfg(test)]
mod forms;
#[cfg(test)]
mod words;
