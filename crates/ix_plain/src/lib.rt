//! A script's bytes replayed over a directory, and the transcript's text into a sink.
#![tactic(auto)]

mod ending;
pub mod laws;
mod replaying;
#[cfg(test)]
mod tests;

pub use ending::Ending;
pub use replaying::{Ended, MAX_INPUT, replay_bytes, replay_script};
