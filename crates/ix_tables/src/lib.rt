//! The tables of a version: what each look-up finds among its units, kept up to date from what changed.
#![tactic(auto)]

mod gives;
mod laws;
mod map;
mod mover;
mod moves;
mod outlines;
mod records;
mod tables;
#[cfg(test)]
mod tests;
mod units;

pub use outlines::Outlines;
pub use tables::{Tables, Version};
