//! Unit files: what one compilation wrote and depends on, as a value and as bytes.
#![tactic(auto)]

mod batch;
mod dependency;
mod fault;
pub mod laws;
mod order;
mod reading;
mod value;
mod writing;

pub use batch::{Batch, Scan, UnitPut};
pub use fault::UnitError;
pub use reading::decode;
pub use value::{FileDep, Include, RecordDep, UnitValue};
pub use writing::encode;

#[cfg(test)]
mod tests;
