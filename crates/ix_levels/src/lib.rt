//! What a walk has come to, level by level, by look-ups and the records that it needs.
#![tactic(auto)]

pub mod laws;
