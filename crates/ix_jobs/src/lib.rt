//! What a described compile job writes: its unit, and the files of its records.
#![tactic(auto)]

mod job;
pub mod laws;
mod records;
mod sets;
#[cfg(test)]
mod tests;
mod units;

pub use job::JobPlan;
