// A gauge as a buyer would write one.
ghost use Rattle.std.specs.Prelude.{nat_le};

use crate::{Condition, Gauge};

// A word meets the condition from a on, without sign; b is not looked at.
#[derive(Clone, Copy)]
pub struct AtLeast;

impl Gauge for AtLeast {
    ghost meaning = { λ _ signal a b word. nat_le a word };

    fn meets(&self, _signal: u16, condition: Condition, word: u16) -> bool {
        condition.a <= word
    }
}
