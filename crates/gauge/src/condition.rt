// A condition: what a need asks of a signal's word.

// Two numbers, which each gauge reads in its own way.
#[derive(Clone, Copy, PartialEq, Eq, Debug)]
pub struct Condition {
    pub a: u16,
    pub b: u16,
}
