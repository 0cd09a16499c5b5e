//! The JSON of scripts: what a script's value is, that it reads back, and which fault of a value is answered.
#![tactic(auto)]

pub mod first_faults;
pub mod laws;
