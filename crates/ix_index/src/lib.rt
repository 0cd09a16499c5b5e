//! A sorted index whose versions share pages: for each key its values, and how often each is given.
#![tactic(auto)]

mod index;
mod item;
pub mod laws;
mod making;
mod parts;
mod postings;
mod revisions;
mod steps;
#[cfg(test)]
mod tests;

pub use index::Index;
pub use item::Item;
pub use revisions::{Recount, Revision};
pub use steps::{Step, revisions_of};
