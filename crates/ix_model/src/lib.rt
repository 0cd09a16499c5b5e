//! The machine that the store is proved to be: publications, versions, rows, answers and steps.
#![tactic(auto)]

mod event;
mod from_units;
pub mod laws;
mod publication;
mod sorted;
#[cfg(test)]
mod tests;

pub use event::{Call, Event, Outcome};
pub use from_units::{append_some, definitions_of, needs, rows};
pub use publication::{Publication, StoredUnit, change, units_at};
pub use sorted::{Order, OwnOrder, add_once, sorted_set};
