//! The machine that the whole store is proved to be: what opening finds, its state, and its eleven calls.
#![tactic(auto)]

mod effects;
mod event;
mod given;
pub mod laws;
mod machine;
mod may_do;
mod opened;
mod parts;
#[cfg(test)]
mod tests;
mod units;
pub mod worked;

pub use event::{Call, Event, Outcome, Purpose};
pub use given::Given;
pub use machine::Machine;
pub use opened::{Opened, Refused, StoredUnit, UnitFault};
