//! What a question is answered with, worked out from all units, slowly and with no index.
#![tactic(auto)]

mod answers;
mod facts;
pub mod laws;
mod lookups;
mod needs;
mod pattern;
#[cfg(test)]
mod tests;
mod walks;

pub use answers::{answer, definitions_of_each, included, includers, mains, matched};
pub use facts::{
    HeldSymbol, ListedPath, RelatedSymbol, held, includes, listed, record_deps, related_symbols,
};
pub use lookups::{
    coded, holders, in_path, listing, name_at, named, names, paths, providers, related, related_to,
    unit, unit_at,
};
pub use needs::{need_of, next_need};
pub use pattern::matches;
pub use walks::{Walk, walked};
