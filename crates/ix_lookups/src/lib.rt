//! What queries are answered from: the look-ups of a version, and the records that are loaded.
#![tactic(auto)]

mod bodies;
pub mod laws;
mod looking;

pub use bodies::Bodies;
pub use looking::Lookups;
