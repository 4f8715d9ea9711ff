// What every gauge is.
ghost use Rattle.std.specs.Prelude.{◌≡◌};
ghost use Rattle.gauge.specs.Meaning.{GaugeMeaning};

use crate::condition::Condition;

// A gauge means, for each signal and condition, a set of words: those that meet the condition. The one call says yes exactly
// if the word is in the set; it changes nothing and refuses nothing.
pub trait Gauge {
    ghost meaning: { Self → GaugeMeaning };

    fn meets(&self, signal: u16, condition: Condition, word: u16) -> bool
        ensures { result ≡ meaning self.now signal condition.a condition.b word };
}
