//! Laws: each call of a run of lanes may be made, so each run is a run of the machine.
#![tactic(auto)]

pub mod laws;
