//! Scripts of lanes: the steps, the described compile jobs, and how they are read from JSON.
#![tactic(auto)]

mod borrow;
mod fields;
pub mod laws;
mod objects;
mod parse;
mod plan;
mod refusal;
mod script;
mod steps;
mod symbol_table;
mod units;
mod value;
mod values;
mod words;

pub use plan::{
    FilePlan, IncludePlan, OccurrencePlan, RecordPlan, RelationPlan, Script, Step, SymbolPlan,
    UnitPlan,
};
pub use refusal::{Place, ScriptError, ScriptRefusal, What};
pub use steps::read_ask;

#[cfg(test)]
mod tests;
