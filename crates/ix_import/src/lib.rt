//! From a scan to a version: which records are still to be loaded, and what is known once they are.
#![tactic(auto)]

mod import;
mod importer;
pub mod laws;
#[cfg(test)]
mod tests;

pub use importer::Importer;
