//! A directory of the store over a real folder.
#![tactic(auto)]

mod area_folder;
mod folder;
pub mod laws;
mod listing;
mod place;
mod system;

pub use folder::Folder;
pub use system::MAX_FILE;

#[cfg(test)]
mod tests;
