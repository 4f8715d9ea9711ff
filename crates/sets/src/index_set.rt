// A set of numbers below 64: steps or signals.
ghost use Rattle.std.specs.Prelude.{◌&&◌, nat_lt, bit_or, ◌^◌, if◌then◌else◌, ◌≡◌, fold, ℕ, ◌<◌, ◌↔◌, [], ◌||◌, ◌==◌, IsTrue, All, ◌∷◌, MatchOption};
ghost use Rattle.sets.specs.Sets.{bit, mem, members, empty_set, added, Rising};

use crate::members::Members;

// Its bits are packed, so that it takes no heap and is copied as one number; a contract speaks of the rising list of its
// members. No `impl Model`: what holds a struct with one can't be passed by value twice, so a set, and what holds one, would
// not be copied. No `==` and no `Debug`: nothing compares or prints a set.
#[derive(Clone, Copy)]
pub struct IndexSet {
    mask: u64,
}

impl IndexSet {
    #[tactic(auto, using(crate::proofs::Bits::ones_of_none))]
    pub fn empty() -> IndexSet
        ensures value { result ≡ empty_set }
        ensures members { members result ≡ [] }
    {
        IndexSet { mask: 0 }
    }

    #[tactic(auto, using(crate::proofs::Bits::membership))]
    pub fn contains(self, index: u8) -> bool
        ensures value { result ≡ mem index (members self) }
        ensures bits { result ≡ (nat_lt index 64 && bit self.mask index) }
        ensures rising { Rising (members self) }
    {
        index < 64 && (self.mask >> index) & 1 == 1
    }

    #[tactic(auto, using(crate::proofs::Bits::emptiness))]
    pub fn is_empty(self) -> bool
        ensures value { result ≡ (self.mask == 0) }
        ensures members { IsTrue result ↔ (members self ≡ []) }
        ensures rising { Rising (members self) }
    {
        self.mask == 0
    }

    #[tactic(auto, using(crate::proofs::Bits::bounds))]
    pub fn is_below(self, bound: u8) -> bool
        ensures { IsTrue result ↔ All (λ k. k < bound) (members self) }
    {
        bound >= 64 || self.mask >> bound == 0
    }

    // The set with one number more; a number past 63 adds nothing.
    #[tactic(auto, using(crate::proofs::Bits::one_more))]
    pub fn with(self, index: u8) -> IndexSet
        ensures value { result ≡ added self index }
        ensures bits { result.mask ≡ (if nat_lt index 64 then bit_or self.mask (2 ^ index) else self.mask) }
        ensures has { (k : ℕ) → k < 64 → mem k (members result) ≡ (k == index || mem k (members self)) }
        ensures rising { Rising (members result) }
    {
        if index >= 64 {
            return self;
        }
        IndexSet {
            mask: self.mask | 1 << index,
        }
    }

    // The members, each once, the lowest first.
    #[tactic(auto, using(crate::proofs::Bits::ones_rise))]
    pub fn iter(self) -> Members
        ensures value { result ≡ members self }
        ensures rising { Rising (members self) }
    {
        Members::new(self)
    }

    // The lowest member, and the others.
    #[tactic(auto, using(crate::proofs::Bits::lowest))]
    pub(crate) fn split_first(self) -> Option<(u8, IndexSet)>
        ensures { MatchOption result (members self ≡ []) (λ x. members self ≡ x.0 ∷ members x.1) }
    {
        if self.mask == 0 {
            return None;
        }
        let lowest = self.mask.trailing_zeros() as u8;
        Some((
            lowest,
            IndexSet {
                mask: self.mask ^ 1 << lowest,
            },
        ))
    }
}

// The set of these numbers, of which those past 63 do not count.
impl<'a> From<&'a [u8]> for IndexSet {
    ghost from_gives = { λ numbers r. r ≡ fold added empty_set numbers.now };

    fn from(numbers: &'a [u8]) -> IndexSet {
        numbers
            .iter()
            .fold(IndexSet::empty(), |set, number| set.with(*number))
    }
}
