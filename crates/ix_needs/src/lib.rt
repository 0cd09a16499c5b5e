//! What a query answers from the records that it needs is what it answers over all rows of all units.
#![tactic(auto)]

pub mod laws;
