//! What opening a store would find, as a text into a sink. Nothing of the directory changes but counts.
#![tactic(auto)]

mod append;
mod checking;
mod ending;
pub mod laws;
#[cfg(test)]
mod tests;
mod texts;

pub use checking::check;
pub use ending::Ending;
