//! Runs of many lanes, the order that a replay takes, and what a run shows: definitions and laws.
#![tactic(auto)]

pub mod laws;
mod transcript;

pub use transcript::Transcript;
