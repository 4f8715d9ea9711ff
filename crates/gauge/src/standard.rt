// The split gauge that comes ready made.
ghost use Rattle.std.specs.Prelude.{◌≡◌};
ghost use Rattle.gauge.specs.Marked.{MarkedCases};
ghost use Rattle.gauge.specs.Meaning.{standard};

use crate::condition::Condition;
use crate::gauge::Gauge;
use crate::levels::Levels;
use crate::positions::Positions;
use crate::split::Split;

// Positions on the signals below 32, levels on the others.
pub fn standard_gauge() -> Split<Positions, Levels>
    ensures { result ≡ record { first = record {}; second = record {}; boundary = 32 } }
{
    Split::new(Positions, Levels, 32)
}

// Asks that gauge. The contract says what the three gauges of this crate mean, since it is met through their own calls.
pub fn meets_standard(signal: u16, condition: Condition, word: u16) -> bool
    ensures value { result ≡ standard signal condition.a condition.b word }
    ensures marked { MarkedCases }
{
    standard_gauge().meets(signal, condition, word)
}
