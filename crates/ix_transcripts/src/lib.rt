//! The text of a transcript, line by line into a sink.
#![tactic(auto)]

mod append;
mod ask_text;
mod event_text;
mod line;
mod refused_text;
mod row_text;
mod words;
mod write;

pub use line::Line;
pub use write::{WriteError, write_transcript};
