//! Scripts of many lanes, replayed over a library.
#![tactic(auto)]

pub mod laws;
mod replaying;
mod runner;
#[cfg(test)]
mod tests;

pub use ix_transcripts::{WriteError, write_transcript};
pub use replaying::{ReplayError, Replayed, replay};
pub use runner::Runner;
