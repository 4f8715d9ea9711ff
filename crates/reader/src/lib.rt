//! Reading a sheet file: the sheet that its records say, the name of a step.
#![tactic(auto)]

mod draft;
mod ledger;
mod naming;
mod reading;
mod walk;

pub use naming::name;
pub use reading::{ReadError, read};
