// Positions of a selector: each of sixteen may be let through.
ghost use Rattle.gauge.specs.Meaning.{positions};

use crate::condition::Condition;
use crate::gauge::Gauge;

// A word from 0 to 15 meets the condition if that bit of a is 1, the lowest bit being bit 0, and b is 0.
#[derive(Clone, Copy)]
pub struct Positions;

impl Gauge for Positions {
    ghost meaning = { λ _. positions };

    fn meets(&self, _signal: u16, condition: Condition, word: u16) -> bool {
        let Condition { a, b } = condition;
        word < 16 && (a >> word) % 2 == 1 && b == 0
    }
}
