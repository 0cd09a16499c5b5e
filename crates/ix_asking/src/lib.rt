//! Asks of any form, from look-ups and the records that are loaded.
#![tactic(auto)]

mod form;
pub mod laws;
mod open_ask;

pub use open_ask::OpenAsk;
