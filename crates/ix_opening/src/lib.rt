//! What opening a store does with its directory: it finds the sound units, and takes the refused files away.
#![tactic(auto)]

mod cleaning;
mod fault;
pub mod laws;
mod looking;
mod records;
mod units;

pub use cleaning::open;
pub use fault::OpenError;
pub use looking::{Found, look};

#[cfg(test)]
mod tests;
