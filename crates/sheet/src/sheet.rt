// A sheet: the steps of a start, a change-over or a clearing, and what each needs and sets.
ghost use Rattle.std.specs.Prelude.{◌≡◌, ◌↔◌, IsSome, IfSome};
ghost use Rattle.sheet.specs.Limits.{Limits};
ghost use Rattle.sheet.specs.Links.{Linked};
ghost use Rattle.sheet.specs.Model.{model_of};

use crate::parts::{Effect, Need, Pair, Parts};
use std::marker::Model;

// Parts that keep every limit, so that no call on a sheet tests them.
#[derive(Drop)]
pub struct Sheet {
    parts: Parts,
}

impl Model for Sheet {
    ghost use Rattle.sheet.specs.Limits.{Limits};
    ghost use Rattle.sheet.specs.Model as model;

    ghost Value = { model.Sheet };

    ghost view = { λ s. model.model_of s.parts };

    ghost invariant = { λ s. Limits (model.model_of s.parts) };
}

impl Sheet {
    // The sheet of these parts, exactly if they keep every limit.
    pub fn new(parts: Parts) -> Option<Sheet>
        ensures exact { IsSome result ↔ Limits (model_of parts) }
        ensures value { IfSome result (λ sheet. sheet ≡ model_of parts) }
    {
        if parts.fit() {
            Some(Sheet { parts })
        } else {
            None
        }
    }

    // This and the calls below say the limits too: a caller sees the value, and not the invariant that the fields keep.
    pub fn steps(&self) -> u8
        ensures value { result ≡ self.now.steps }
        ensures limits { Limits self.now }
    {
        self.parts.steps
    }

    // The start word of each signal.
    pub fn starts(&self) -> &[u16]
        ensures value { result.now ≡ self.now.starts }
        ensures limits { Limits self.now }
    {
        self.parts.starts.as_slice()
    }

    pub fn effects(&self) -> &[Effect]
        ensures value { result.now ≡ self.now.effects }
        ensures limits { Limits self.now }
    {
        self.parts.effects.as_slice()
    }

    #[tactic(auto, using(crate::proofs::Made::all_linked))]
    pub fn needs(&self) -> &[Need]
        ensures value { result.now ≡ self.now.needs }
        ensures limits { Limits self.now }
        ensures linked { Linked self.now.needs }
    {
        self.parts.needs.as_slice()
    }

    pub fn pairs(&self) -> &[Pair]
        ensures value { result.now ≡ self.now.pairs }
        ensures limits { Limits self.now }
    {
        self.parts.pairs.as_slice()
    }
}
