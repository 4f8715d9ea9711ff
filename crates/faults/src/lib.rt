//! The verdict on a sheet, and the faults of every layer with number, place and layer.
#![tactic(auto)]

pub mod fault;
pub mod numbering;
#[cfg(test)]
mod tests;
pub mod verdict;
