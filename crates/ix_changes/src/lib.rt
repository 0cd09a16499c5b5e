//! The changes that the steps of a store make on disk.
#![tactic(auto)]

mod changes;
pub mod laws;

pub use changes::{collect, publish, put, remove};

#[cfg(test)]
mod tests;
