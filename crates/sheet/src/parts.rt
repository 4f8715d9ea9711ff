// The parts of a sheet: effects, needs with their links, and pairs.
ghost use Rattle.std.specs.Prelude.{◌≡◌, ◌≢◌, ◌<◌, [], MatchOption};
ghost use Rattle.sets.specs.Sets.{members, Rising};

use gauge::Condition;
use sets::index_set::IndexSet;

// What a step does to a signal: it sets it to a word. These derive no `==` and no `Debug`, as nothing compares or prints them,
// and each derive is proved anew.
#[derive(Clone, Copy)]
pub struct Effect {
    pub step: u8,
    pub signal: u8,
    pub word: u16,
}

// A causal link: the steps that are to give a need, its contributors, at least one. No `impl Model`: a need, which holds a link,
// is to be copied.
#[derive(Clone, Copy)]
pub struct Link {
    contributors: IndexSet,
    ghost some: { members contributors ≢ [] },
}

impl Link {
    ghost use Rattle.sheet.specs.Links.{link_of};

    // The link with these contributors; no step at all makes no link.
    #[tactic(auto, using(crate::proofs::Made::link_none))]
    pub fn new(contributors: IndexSet) -> Option<Link>
        ensures value { result ≡ link_of contributors }
        ensures contributors { MatchOption result (contributors.mask ≡ 0) (λ l. l.contributors ≡ contributors) }
        ensures members { MatchOption result (members contributors ≡ []) (λ l. 0 < l.contributors.mask) }
    {
        if contributors.is_empty() {
            return None;
        }
        Some(Link { contributors })
    }

    #[tactic(auto, using(sets::proofs::Bits::ones_rise, sets::proofs::Bits::ones_of_none))]
    pub fn contributors(self) -> IndexSet
        ensures value { result ≡ self.contributors }
        ensures bits { 0 < result.mask }
        ensures some { members result ≢ [] }
        ensures rising { Rising (members result) }
    {
        self.contributors
    }
}

// What a step asks of a signal before it may run: a condition, which a gauge reads.
#[derive(Clone, Copy)]
pub struct Need {
    pub step: u8,
    pub signal: u8,
    pub condition: Condition,
    pub link: Option<Link>,
}

// Two steps, of which one goes ahead of the other.
#[derive(Clone, Copy)]
pub struct Pair {
    pub earlier: u8,
    pub later: u8,
}

// Step 0 is the start and the last step is the finish. The start words are the words that the start sets.
#[derive(Drop)]
pub struct Parts {
    pub steps: u8,
    pub starts: Vec<u16>,
    pub effects: Vec<Effect>,
    pub needs: Vec<Need>,
    pub pairs: Vec<Pair>,
}
