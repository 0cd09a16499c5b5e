//! Answers of queries from look-ups and the records that are needed.
#![tactic(auto)]

mod answers;
mod choices;
pub mod laws;
mod names;
mod needed;
mod pattern;
mod question;
mod rows;
mod sets;
#[cfg(test)]
mod tests;

pub use answers::answer;
pub use needed::next_need;
pub use question::Question;
