//! A sorted map whose versions share pages.
#![tactic(auto)]

mod bulk;
mod changes;
mod key;
pub mod laws;
mod node;
mod page;
mod pages;
mod part;
mod range;
mod root;
#[cfg(test)]
mod tests;

pub use changes::{Change, are_rising};
pub use key::Key;
pub use page::Entry;
pub use pages::Pages;
pub use range::Range;
