//! The turns of a replay, over whatever makes the calls of its lanes.
#![tactic(auto)]

pub mod laws;
mod replaying;
mod stepper;
#[cfg(test)]
mod tests;

pub use replaying::run_script;
pub use stepper::Stepper;
