//! Queries of all eighteen forms over a version.
#![tactic(auto)]

mod form;
pub mod laws;
#[cfg(test)]
mod tests;
mod versions;

pub use versions::{answer, next_need};
