//! The records of a sheet file, one by one.
#![tactic(auto)]

pub mod cursor;
mod marks;
pub mod record;
