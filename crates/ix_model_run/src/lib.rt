//! The run of a script for an order of lanes and for flags, worked out plainly and slowly from its definition.
#![tactic(auto)]

mod copies;
mod known;
mod next;
mod progress;
mod run;
mod seen;
#[cfg(test)]
mod tests;

pub use run::model_run;
