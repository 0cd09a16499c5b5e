//! A lane's next call, made on the library and the importer.
#![tactic(auto)]

mod builds;
mod endings;
pub mod laws;
mod next;
mod others;
mod polls;
mod tested;

pub use next::make;
