//! What a stop leaves of a store: laws of the moves that its steps make.
#![tactic(auto)]

pub mod laws;
pub mod steps;
