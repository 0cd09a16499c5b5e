//! A directory of two areas, with what a crash may leave of it: the trait, and a directory in memory.
#![tactic(auto)]

mod area;
mod crash;
mod dir;
mod file_index;
pub mod laws;
mod memory;
mod moves;
mod pick;
mod steady;
mod untold;
mod values_by_name;

pub use area::Area;
pub use dir::{Dir, DirError, Listed};
pub use memory::MemoryDir;
pub use moves::Move;
pub use pick::Pick;
pub use steady::SteadyDir;
pub use untold::{Reads, ReadsFrom, UntoldDir};

#[cfg(test)]
mod tests;
