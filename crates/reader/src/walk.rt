// Going through a file record by record.
ghost use Rattle.std.specs.Prelude.{◌≡◌, ℕ, List, [], IfOk};
ghost use Rattle.records.specs.Item.{Item};
ghost use Rattle.records.specs.View.{item_of, shown, Placed};
ghost use Rattle.reader.specs.Reading.{next};
ghost use Rattle.reader.specs.Said.{Said, said};
ghost use Rattle.reader.specs.Shows.{Shows};
ghost use Rattle.reader.specs.Walk.{After, Reached, Onward};

use crate::ledger::Ledger;
use faults::fault::{Cause, ReaderFault};
use records::cursor::Cursor;
use records::record::Record;

// The place of the next record, and what those before it have said. The place is no `Cursor` here: with one in this struct
// the borrow checker writes no proof of `name`.
#[derive(Drop)]
pub(crate) struct Walk<'a> {
    file: &'a [u8],
    at: u16,
    ledger: Ledger,
}

impl Ledger {
    // The record at this place, if it may follow those before it, and the place after it.
    fn read_record<'a>(&mut self, cursor: &Cursor<'a>) -> Result<(Record<'a>, usize), ReaderFault>
        ensures value { (s : Said) → Shows self.old s → shown result ≡ next cursor.now.file.now s cursor.now.at }
        ensures after { IfOk result (λ x. (s : Said) → Shows self.old s → Shows self.new (said s (item_of x.0))) }
        ensures places { Placed cursor.now.at result }
    {
        let mark = cursor.mark()?;
        if !self.may_stand(mark) {
            return Err(cursor.fault(Cause::Mark));
        }
        let (record, end) = cursor.body(mark)?;
        // copied out, since no proof was found of what a closure that borrows the cursor answers
        let place = cursor.at;
        self.admit(record)
            .map_err(|cause| ReaderFault { cause, place })?;
        Ok((record, end))
    }
}

impl<'a> Walk<'a> {
    #[tactic(auto, using(crate::proofs::Advancing::walk_begins))]
    pub(crate) fn new(file: &'a [u8]) -> Walk<'a>
        ensures after { After result [] 0 }
        ensures file { result.file.now ≡ file.now }
    {
        Walk {
            file,
            at: 0,
            ledger: Ledger::new(),
        }
    }

    pub(crate) fn steps(&self) -> u8
        ensures { result ≡ self.now.ledger.steps }
    {
        self.ledger.steps()
    }

    // The next record; nothing where the file ends with its end record.
    pub(crate) fn next(&mut self) -> Result<Option<Record<'a>>, ReaderFault>
        requires { Reached self.old }
        ensures { (past : List Item) (n : ℕ) → After self.old past n → Onward self.old past n result self.new }
    {
        let cursor = Cursor {
            file: self.file,
            at: self.at,
        };
        let (record, end) = self.ledger.read_record(&cursor)?;
        if let Record::End = record {
            if end < self.file.len() {
                return Err(ReaderFault {
                    cause: Cause::AfterEnd,
                    place: end as u16,
                });
            }
            return Ok(None);
        }
        self.at = end as u16;
        Ok(Some(record))
    }
}
