//! What tables remember of records and units, and what each look-up finds by it.
#![tactic(auto)]

pub mod laws;
mod outline;
#[cfg(test)]
mod tests;

pub use outline::{Outline, OutlineSymbol};
