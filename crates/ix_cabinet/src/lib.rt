//! Unit files on a directory: made ready, published, removed, and looked through for what changed.
#![tactic(auto)]

mod change;
mod fault;
pub mod laws;
mod scanning;
mod stamps;

pub use change::{Settled, publish_unit, remove_unit, stage_unit};
pub use fault::{ScanError, StageError};
pub use scanning::{Scanned, scan, scan_listed};
pub use stamps::Stamps;

#[cfg(test)]
mod tests;
