//! The library: unit and record files on a directory, and what is kept of them in memory.
#![tactic(auto)]

mod building;
mod collecting;
mod failures;
mod fault;
mod given;
mod known;
pub mod laws;
mod library;
mod loads;
pub mod look_laws;
mod opening;
mod room;
mod scans;
mod units;
mod versions;

pub use fault::{CollectError, Collected, PublishError, RemoveError};
pub use known::KnownStamps;
pub use library::Library;
pub use opening::{Started, check_store, open_store};

#[cfg(test)]
mod look_tests;
#[cfg(test)]
mod tests;
