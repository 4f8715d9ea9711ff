// The name of a step, as a part of the file.
ghost use Rattle.std.specs.Prelude.{◌≡◌, List, ◌∷◌};
ghost use Rattle.records.specs.Item.{Item, size};
ghost use Rattle.records.specs.View.{item_of, PlacedAt};
ghost use Rattle.reader.specs.Law.{FaultsFirst, NamesExactly};
ghost use Rattle.reader.specs.Reading.{naming, name_in};
ghost use Rattle.reader.specs.Results.{named, part_of};

use crate::walk::Walk;
use faults::fault::{Fault, RunFault};
use records::record::{Part, Record};

// The name in this record, where it is one of the step's; else the one found so far.
fn or_newer<'a>(found: Option<Part<'a>>, candidate: Record<'a>, step: u16) -> Option<Part<'a>>
    ensures { (past : List Item) → PlacedAt (size past) candidate.entry → part_of found.entry ≡ name_in past step
        → part_of result ≡ name_in (item_of candidate.entry ∷ past) step }
{
    match candidate {
        Record::Name { step: named, name } if u16::from(named) == step => Some(name),
        _ => found,
    }
}

// The whole file is read first, so its faults come ahead of a step that is not there.
pub fn name<'a>(file: &'a [u8], step: u16) -> Result<Option<Part<'a>>, Fault>
    ensures value { named result ≡ naming file.now step }
    ensures first { FaultsFirst }
    ensures exact { NamesExactly }
{
    let mut walk = Walk::new(file);
    let mut found = None;
    while let Some(record) = walk.next()? {
        found = or_newer(found, record, step);
    }
    if step < u16::from(walk.steps()) {
        Ok(found)
    } else {
        Err(Fault::Run(RunFault::NoSuchStep { step }))
    }
}
