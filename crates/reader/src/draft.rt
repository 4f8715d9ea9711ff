// The sheet that is being read, record by record.
ghost use Rattle.std.specs.Prelude.{◌≡◌, true, MatchOption, MatchResult};
ghost use Rattle.sheet.specs.Model.{model_of};
ghost use Rattle.reader.specs.Draft.{takes_memory};
ghost use Rattle.reader.specs.Said.{Said, said, nothing, sheet_of};
ghost use Rattle.records.specs.View.{item_of};

use records::record::Record;
use sets::index_set::IndexSet;
use sheet::parts::{Link, Need, Pair, Parts};
use std::alloc::{AllocError, Global};

pub(crate) fn no_parts(heap: Global) -> Parts
    ensures { model_of result ≡ sheet_of nothing }
{
    Parts {
        steps: 0,
        starts: Vec::new(heap),
        effects: Vec::new(heap),
        needs: Vec::new(heap),
        pairs: Vec::new(heap),
    }
}

// One record more. Only want of memory stands in its way.
#[tactic(auto, using(sets::proofs::Bits::of_numbers))]
pub(crate) fn add(parts: &mut Parts, candidate: Record) -> Result<(), AllocError>
    ensures { MatchResult result
        (λ _. (s : Said) → model_of parts.old ≡ sheet_of s → model_of parts.new ≡ sheet_of (said s (item_of candidate.entry)))
        (λ _. takes_memory (item_of candidate.entry) ≡ true) }
{
    match candidate {
        Record::Header { steps, .. } => parts.steps = steps,
        Record::Start { word } => parts.starts.push(word)?,
        Record::Effect { effect } => parts.effects.push(effect)?,
        Record::Need {
            step,
            signal,
            condition,
        } => parts.needs.push(Need {
            step,
            signal,
            condition,
            link: None,
        })?,
        Record::Pair { earlier, later } => parts.pairs.push(Pair { earlier, later })?,
        Record::Link { need, contributors } => {
            if let Some(need) = parts.needs.get_mut(usize::from(need)) {
                need.link = Link::new(IndexSet::from(contributors.bytes));
            }
        }
        Record::Name { .. } | Record::End => {}
    }
    Ok(())
}
