//! Asks of a version that is held.
#![tactic(auto)]

mod asks;
#[cfg(test)]
mod tests;

pub use asks::{Next, ask};
