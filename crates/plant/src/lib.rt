//! Plants: the signals of a gin, each with a word.
#![tactic(auto)]

mod checks;
mod difference;
mod panel;
mod plant;
mod rack;
mod setting;

pub use checks::{check_signal, check_word};
pub use difference::first_difference;
pub use panel::Panel;
pub use plant::Plant;
pub use rack::Rack;
pub use setting::set_words;

#[cfg(test)]
mod tests;
