// Two gauges side by side.
ghost use Rattle.std.specs.Prelude.{◌≡◌};
ghost use Rattle.gauge.specs.Meaning.{split};

use crate::condition::Condition;
use crate::gauge::Gauge;

// Signals below the boundary go to the first gauge, the others to the second, under their own numbers.
#[derive(Clone, Copy)]
pub struct Split<G, H> {
    first: G,
    second: H,
    boundary: u16,
}

impl<G, H> Split<G, H> {
    pub fn new(first: G, second: H, boundary: u16) -> Split<G, H>
        ensures { result ≡ record { first = first; second = second; boundary = boundary } }
    {
        Split {
            first,
            second,
            boundary,
        }
    }
}

impl<G: Gauge, H: Gauge> Gauge for Split<G, H> {
    ghost meaning = { λ s. split s.boundary (G.meaning s.first) (H.meaning s.second) };

    fn meets(&self, signal: u16, condition: Condition, word: u16) -> bool {
        if signal < self.boundary {
            self.first.meets(signal, condition, word)
        } else {
            self.second.meets(signal, condition, word)
        }
    }
}
