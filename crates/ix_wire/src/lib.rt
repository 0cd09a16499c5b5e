//! Numbers and texts as bytes: a cursor that reads them from the left, and calls that write them.
#![tactic(auto)]

mod cursor;
mod fault;
pub mod laws;
mod writing;

pub use cursor::Cursor;
pub use fault::WireError;
pub use writing::{put_text, put_u32, put_u64};

#[cfg(test)]
mod tests;
