// What the records of a file have said so far, as much as the next record is tested against.
ghost use Rattle.std.specs.Prelude.{◌≡◌, ◌≤◌};

use sets::index_set::IndexSet;

mod admission;

// Sets and counts, and no list, so that the name of a step is found with no heap. The numbers of the header are 0 until it is
// read: no step and no signal is below them then, so these are counts and no sign of their own.
#[derive(Clone, Copy)]
pub(crate) struct Ledger {
    steps: u8,
    signals: u8,
    starts: u8,
    effects: u16,
    needs: u16,
    pairs: u16,
    // for each step the signals that it sets
    set_by: [IndexSet; 64],
    // the needs that have a link record
    linked: [bool; 256],
    // the steps that have a name
    named: IndexSet,
    ghost few_steps: { steps ≤ 64 },
    ghost few_signals: { signals ≤ 64 },
    ghost few_needs: { needs ≤ 256 },
}
