//! The turns of a poll over a library and an importer, and refreshes.
#![tactic(auto)]

pub mod laws;
mod polled;
mod polls;

pub use polled::Polled;
pub use polls::{adopt, import, scan};
