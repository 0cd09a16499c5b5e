//! How often a directory failed, found a record file and made a list, beside what events say of it.
#![tactic(auto)]

pub mod laws;
