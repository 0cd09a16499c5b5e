//! What the library keeps in memory: step by step the machine's state.
#![tactic(auto)]

mod change;
mod fresh;
mod import;
pub mod laws;
mod ledger;
mod log;
mod register;
#[cfg(test)]
mod tests;
mod unit_map;
mod versions;

pub use change::Change;
pub use import::Import;
pub use ledger::Ledger;
