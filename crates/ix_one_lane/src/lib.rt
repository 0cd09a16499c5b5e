//! Laws: in a run of one lane an ask behind a build and a poll sees what the build wrote.
#![tactic(auto)]

mod given;
pub mod laws;
