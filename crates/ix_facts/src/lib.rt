//! What is true of a store that stands for a state of the machine: of its disk, of its memory, and of what happened.
#![tactic(auto)]

pub mod facts;
mod given;
pub mod lasts;
pub mod runs;
pub mod stops;
#[cfg(test)]
mod tests;
pub mod there;
