//! The tests of `records` and `reader`, apart from them, so that they do not prove them a second time.
#![tactic(auto)]

#[cfg(test)]
mod contents;
#[cfg(test)]
mod places;
#[cfg(test)]
mod refusals;
