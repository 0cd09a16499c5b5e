//! Which records must stay: need lists, and the guard that keeps them beside leases and holds.
#![tactic(auto)]

mod guard;
pub mod laws;
mod lease;
mod need_list;
mod recount;
mod tally;
#[cfg(test)]
mod tests;

pub use guard::Guard;
pub use need_list::NeedList;
