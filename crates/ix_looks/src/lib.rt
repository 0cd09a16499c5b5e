//! Looks at the files of a store: a scan of its units, and a load of a record.
#![tactic(auto)]

pub mod laws;
mod looks;

pub use looks::{load, scan};

#[cfg(test)]
mod tests;
