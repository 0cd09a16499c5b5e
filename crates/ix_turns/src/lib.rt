//! The calls of lanes on a library, each said by the outcome with which it ended.
#![tactic(auto)]

mod builds;
pub mod laws;
mod looks;
mod units;
mod versions;

pub use builds::{lease, put, stage};
pub use looks::{Loaded, Scanned, load, scan};
pub use units::{collect, publish, remove};
pub use versions::{adopt, install, release};
