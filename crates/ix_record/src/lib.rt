//! Record files: the symbols and occurrences of one source file, as values and as bytes.
#![tactic(auto)]

mod body;
mod fault;
pub mod laws;
mod order;
mod reading;
mod value;
mod writing;

pub use body::Body;
pub use fault::RecordError;
pub use reading::decode;
pub use value::{Occurrence, RecordValue, Relation, Symbol};
pub use writing::encode;

#[cfg(test)]
mod tests;
