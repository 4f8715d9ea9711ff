// Whether parts keep the limits of a sheet.
ghost use Rattle.std.specs.Prelude.{◌≡◌, ◌<◌, ◌≤◌, ◌↔◌, IsTrue, length, slice_index_or, All, AllPairs, vec_len};
ghost use Rattle.sheet.specs.Fit.{EffectFits, SameTarget, NeedFits, LinkFits, PairFits};
ghost use Rattle.sheet.specs.Keeping.{CountsFit, EffectsFit, NeedsFit, PairsFit};
ghost use Rattle.sheet.specs.Limits.{Limits};
ghost use Rattle.sheet.specs.Model.{model_of};

use crate::parts::{Effect, Need, Pair, Parts};

impl Effect {
    fn fits(self, parts: &Parts) -> bool
        ensures { IsTrue result ↔ EffectFits parts.now.steps (vec_len parts.now.starts) self }
    {
        self.step > 0
            && usize::from(self.step) + 1 < usize::from(parts.steps)
            && usize::from(self.signal) < parts.starts.len()
    }

    fn same_target(self, other: Effect) -> bool
        ensures { IsTrue result ↔ SameTarget self other }
    {
        self.step == other.step && self.signal == other.signal
    }
}

impl Need {
    fn fits(self, parts: &Parts) -> bool
        ensures { IsTrue result ↔ NeedFits parts.now.steps (vec_len parts.now.starts) self.step self.signal }
    {
        self.step > 0 && self.step < parts.steps && usize::from(self.signal) < parts.starts.len()
    }

    fn link_fits(self, steps: u8) -> bool
        ensures { IsTrue result ↔ LinkFits steps self.link }
    {
        self.link
            .is_none_or(|link| link.contributors().is_below(steps))
    }
}

impl Pair {
    fn fits(self, steps: u8) -> bool
        ensures { IsTrue result ↔ PairFits steps self }
    {
        self.earlier < steps && self.later < steps
    }
}

fn is_new(effect: Effect, effects: &[Effect]) -> bool
    ensures { IsTrue result ↔ All (λ e. SameTarget e effect → ⊥) effects.now }
{
    effects.iter().all(|earlier| !earlier.same_target(effect))
}

// Whether no effect has the step and the signal of one ahead of it.
fn are_single(effects: &[Effect]) -> bool
    ensures { IsTrue result ↔ AllPairs (λ e f. SameTarget e f → ⊥) effects.now }
{
    effects
        .iter()
        .enumerate()
        .all(|(k, effect)| is_new(*effect, &effects[..k]))
}

impl Parts {
    fn counts_fit(&self) -> bool
        ensures { IsTrue result ↔ CountsFit self.now }
    {
        let signals = self.starts.len();
        (2..=64).contains(&self.steps)
            && (1..=64).contains(&signals)
            && self.effects.len() <= 256
            && self.needs.len() <= 256
            && self.pairs.len() <= 512
    }

    fn effects_fit(&self) -> bool
        ensures { IsTrue result ↔ EffectsFit self.now }
    {
        self.effects.iter().all(|effect| effect.fits(self)) && are_single(&self.effects)
    }

    fn needs_fit(&self) -> bool
        ensures { IsTrue result ↔ NeedsFit self.now }
    {
        self.needs.iter().all(|need| need.fits(self))
            && self.needs.iter().all(|need| need.link_fits(self.steps))
    }

    fn pairs_fit(&self) -> bool
        ensures { IsTrue result ↔ PairsFit self.now }
    {
        self.pairs.iter().all(|pair| pair.fits(self.steps))
    }

    // Whether these are the parts of a sheet.
    #[tactic(auto, using(crate::proofs::Kept::limit_facts))]
    pub(crate) fn fit(&self) -> bool
        ensures { IsTrue result ↔ Limits (model_of self.now) }
    {
        self.counts_fit() && self.effects_fit() && self.needs_fit() && self.pairs_fit()
    }
}
