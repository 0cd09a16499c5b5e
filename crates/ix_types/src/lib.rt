//! The base types of the store: lists, texts, names of files, codes, queries and rows.
#![tactic(auto)]

mod code;
mod code_table;
mod count;
mod failures;
mod format;
pub mod laws;
mod name;
mod row;
mod seq;
mod tables;
#[cfg(test)]
mod tests;
mod text;

pub use code::{Kind, Lang, Props, Roles};
pub use code_table::{CodeTable, push_words};
pub use count::count_up;
pub use failures::{Failed, Memory};
pub use format::Format;
pub use name::{FileName, Naming, Sha};
pub use row::{EdgeRow, OccRow, Query, RelRow, Row};
pub use seq::Seq;
pub use tables::{kinds, langs, props, queries, roles, verbs};
pub use text::{Text, TextError};
