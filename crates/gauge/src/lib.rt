//! Gauges: whether a word of a signal meets a condition.
#![tactic(auto)]

mod condition;
mod gauge;
mod levels;
mod lowest;
mod positions;
mod split;
mod standard;

pub use condition::Condition;
pub use gauge::Gauge;
pub use levels::Levels;
pub use lowest::lowest_word;
pub use positions::Positions;
pub use split::Split;
pub use standard::{meets_standard, standard_gauge};

#[cfg(test)]
mod tests;
