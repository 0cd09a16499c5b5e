//! Lanes: how far each is, what it does next, and what its asks answered.
#![tactic(auto)]

mod agenda;
mod answered;
mod doing;
mod lane;
pub mod laws;
mod results;
mod task;
#[cfg(test)]
mod tests;
mod turn;

pub use answered::{Answered, AskResult};
pub use doing::{Doing, Kind};
pub use lane::Lane;
pub use turn::Turn;
