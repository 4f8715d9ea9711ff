//! A sheet and its parts.
#![tactic(auto)]

mod fit;
pub mod parts;
pub mod sheet;
#[cfg(test)]
mod tests;
