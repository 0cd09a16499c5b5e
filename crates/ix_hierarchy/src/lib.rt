//! Call and type hierarchies, level by level, from look-ups and the records that are needed.
#![tactic(auto)]

mod answers;
mod edges;
pub mod laws;
mod level;
mod open_walk;
mod seen;
mod sets;
#[cfg(test)]
mod tests;

pub use answers::{answer, next_need};
pub use open_walk::OpenWalk;
