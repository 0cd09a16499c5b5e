//! Record files on a directory: put, read, made to stay, and taken away.
#![tactic(auto)]

mod fault;
pub mod laws;
mod shelf;

pub use fault::{LoadError, PutError};
pub use shelf::{Put, Shelf};

#[cfg(test)]
mod tests;
