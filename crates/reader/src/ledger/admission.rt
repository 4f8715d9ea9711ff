// Testing a record against those before it, and noting it.
ghost use Rattle.std.specs.Prelude.{◌≡◌, ℕ, ◌<◌, ◌≤◌, true, List, nat_lt};
ghost use Rattle.std.specs.List.{list_all};
ghost use Rattle.records.specs.Item as item;
ghost use Rattle.records.specs.Standing.{well_formed};
ghost use Rattle.records.specs.View.{item_of};
ghost use Rattle.reader.specs.Lawful.{stands_after};
ghost use Rattle.reader.specs.Said.{Said, said, nothing};
ghost use Rattle.reader.specs.Shows.{Shows, Admits};

use crate::ledger::Ledger;
use faults::fault::Cause;
use records::record::{Mark, Record};
use sets::index_set::IndexSet;
use sheet::parts::Effect;

impl Ledger {
    pub(crate) fn new() -> Ledger
        ensures { Shows result nothing }
    {
        let none = IndexSet::empty();
        Ledger {
            steps: 0,
            signals: 0,
            starts: 0,
            effects: 0,
            needs: 0,
            pairs: 0,
            set_by: [none; 64],
            linked: [false; 256],
            named: none,
        }
    }

    pub(crate) fn steps(&self) -> u8
        ensures { result ≡ self.now.steps }
    {
        self.steps
    }

    // Whether a record with this mark may come next.
    pub(crate) fn may_stand(&self, mark: Mark) -> bool
        ensures { result ≡ stands_after self.now.steps self.now.signals self.now.starts mark }
    {
        match mark {
            Mark::Header => self.steps == 0,
            Mark::Start => self.steps > 0 && self.starts < self.signals,
            _ => self.steps > 0 && self.starts >= self.signals,
        }
    }

    fn note_header(&mut self, steps: u8, signals: u8)
        requires { (steps ≤ 64) × (signals ≤ 64) }
        ensures { (s : Said) → Shows self.old s → Shows self.new (said s (item.header steps signals)) }
    {
        self.steps = steps;
        self.signals = signals;
    }

    fn note_start(&mut self)
        requires { self.old.starts < self.old.signals }
        ensures { (s : Said) (word : ℕ) → Shows self.old s → Shows self.new (said s (item.start word)) }
    {
        self.starts += 1;
    }

    fn admit_effect(&mut self, effect: Effect) -> Result<(), Cause>
        ensures { Admits self.old (item.effect effect) result self.new }
    {
        if effect.step >= self.steps || effect.signal >= self.signals {
            return Err(Cause::NoSuch);
        }
        if effect.step == 0 || effect.step + 1 >= self.steps {
            return Err(Cause::WrongStep);
        }
        let set = self.set_by[usize::from(effect.step)];
        if set.contains(effect.signal) {
            return Err(Cause::Repeated);
        }
        if self.effects >= 256 {
            return Err(Cause::TooMany);
        }
        self.set_by[usize::from(effect.step)] = set.with(effect.signal);
        self.effects += 1;
        Ok(())
    }

    fn admit_need(&mut self, step: u8, signal: u8) -> Result<(), Cause>
        ensures { (a b : ℕ) → Admits self.old (item.need step signal a b) result self.new }
    {
        if step >= self.steps || signal >= self.signals {
            return Err(Cause::NoSuch);
        }
        if step == 0 {
            return Err(Cause::WrongStep);
        }
        if self.needs >= 256 {
            return Err(Cause::TooMany);
        }
        self.needs += 1;
        Ok(())
    }

    fn admit_pair(&mut self, earlier: u8, later: u8) -> Result<(), Cause>
        ensures { Admits self.old (item.pair earlier later) result self.new }
    {
        if earlier >= self.steps || later >= self.steps {
            return Err(Cause::NoSuch);
        }
        if self.pairs >= 512 {
            return Err(Cause::TooMany);
        }
        self.pairs += 1;
        Ok(())
    }

    // Whether each of these is a step.
    fn has_all(&self, steps: &[u8]) -> bool
        ensures { result ≡ list_all (λ k. nat_lt k self.now.steps) steps.now }
    {
        steps.iter().all(|step| *step < self.steps)
    }

    fn admit_link(&mut self, need: u8, contributors: &[u8]) -> Result<(), Cause>
        ensures { Admits self.old (item.link need contributors.now) result self.new }
    {
        if u16::from(need) >= self.needs || !self.has_all(contributors) {
            return Err(Cause::NoSuch);
        }
        if self.linked[usize::from(need)] {
            return Err(Cause::LinkedTwice);
        }
        self.linked[usize::from(need)] = true;
        Ok(())
    }

    fn admit_name(&mut self, step: u8) -> Result<(), Cause>
        ensures { (letters : List ℕ) → Admits self.old (item.name step letters) result self.new }
    {
        if step >= self.steps {
            return Err(Cause::NoSuch);
        }
        if self.named.contains(step) {
            return Err(Cause::Repeated);
        }
        self.named = self.named.with(step);
        Ok(())
    }

    // The first rule that the record breaks after those before it; where it breaks none it is noted.
    pub(crate) fn admit(&mut self, candidate: Record) -> Result<(), Cause>
        requires formed { well_formed (item_of candidate) ≡ true }
        requires placed { stands_after self.old.steps self.old.signals self.old.starts (item.kind (item_of candidate)) ≡ true }
        ensures { Admits self.old (item_of candidate.entry) result self.new }
    {
        // a match and no table of functions, as each case has fields of its own
        match candidate {
            Record::Header { steps, signals } => {
                self.note_header(steps, signals);
                Ok(())
            }
            Record::Start { .. } => {
                self.note_start();
                Ok(())
            }
            Record::Effect { effect } => self.admit_effect(effect),
            Record::Need { step, signal, .. } => self.admit_need(step, signal),
            Record::Pair { earlier, later } => self.admit_pair(earlier, later),
            Record::Link { need, contributors } => self.admit_link(need, contributors.bytes),
            Record::Name { step, .. } => self.admit_name(step),
            Record::End => Ok(()),
        }
    }
}
