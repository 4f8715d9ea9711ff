// The lowest word that meets a condition, by any gauge.
ghost use Rattle.std.specs.Prelude.{◌≡◌};
ghost use Rattle.gauge.specs.Lowest.{lowest_word, LowestExactly};

use crate::condition::Condition;
use crate::gauge::Gauge;

// None for a condition that no word meets.
pub fn lowest_word<G: Gauge>(gauge: &G, signal: u16, condition: Condition) -> Option<u16>
    ensures value { result ≡ lowest_word (G.meaning gauge.now signal condition.a condition.b) }
    ensures law { LowestExactly }
{
    // no `find` over this range: it takes up to twice the time for each word
    for word in 0..=u16::MAX {
        if gauge.meets(signal, condition, word) {
            return Some(word);
        }
    }
    None
}
