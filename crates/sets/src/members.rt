// Going through a set.
ghost use Rattle.std.specs.Prelude.{◌≡◌, ℕ, List};
ghost use Rattle.std.specs.Iterator.{YieldsFirst, item_count};
ghost use Rattle.sets.specs.Sets.{members};

use crate::index_set::IndexSet;
use std::marker::Model;

// The members of a set that are still to come, the lowest first.
#[derive(Drop)]
pub struct Members {
    left: IndexSet,
}

impl Model for Members {
    ghost Value = { List ℕ };

    ghost view = { λ s. members s.left };
}

impl Members {
    pub(crate) fn new(set: IndexSet) -> Members
        ensures { result ≡ members set }
    {
        Members { left: set }
    }
}

impl Iterator for Members {
    type Item = u8;

    ghost next_gives = { YieldsFirst (λ s. s) };

    ghost remaining = { item_count (λ s. s) };

    fn next(&mut self) -> Option<u8> {
        let (lowest, others) = self.left.split_first()?;
        self.left = others;
        Some(lowest)
    }
}
