//! Sets of steps or of signals.
#![tactic(auto)]

pub mod index_set;
pub mod members;
#[cfg(test)]
mod tests;
