//! Lanes in their seats: each with the version that it holds, and its open ask.
#![tactic(auto)]

mod coming;
pub mod laws;
mod made;
mod seat;
#[cfg(test)]
mod tests;

pub use made::Made;
pub use seat::Seat;
