// Levels: signed numbers between two bounds.
ghost use Rattle.gauge.specs.Meaning.{levels};

use crate::condition::Condition;
use crate::gauge::Gauge;

// A word meets the condition if a ≤ word ≤ b, all three signed, in two's complement.
#[derive(Clone, Copy)]
pub struct Levels;

impl Gauge for Levels {
    ghost meaning = { λ _. levels };

    fn meets(&self, _signal: u16, condition: Condition, word: u16) -> bool {
        let Condition { a, b } = condition;
        let level = word.cast_signed();
        a.cast_signed() <= level && level <= b.cast_signed()
    }
}
