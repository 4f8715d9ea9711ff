// Reading the record at a place of a file: its mark, its fields, their limits, the rest of its bytes.
ghost use Rattle.std.specs.Prelude.{◌≡◌, ℕ, ◌+◌, ◌^◌, ◌<◌, ◌≤◌, length, slice_index, Ok, OnOk, IfOk};
ghost use Rattle.records.specs.declared.record.Mark.TheVariants as mark;
ghost use Rattle.records.specs.Standing.{RecordsExactly};
ghost use Rattle.records.specs.Shape.{fault, on_ok, mark_at, byte_at, part, part_at, whole, body_at, record_at};
ghost use Rattle.records.specs.View.{shown, part_shown, numbered_shown, Placed};

use crate::record::{Mark, Part, Record};
use faults::fault::{Cause, ReaderFault};
use gauge::Condition;
use sheet::parts::Effect;

// A place of a file.
#[derive(Clone, Copy)]
pub struct Cursor<'a> {
    pub file: &'a [u8],
    pub at: u16,
}

impl<'a> Cursor<'a> {
    // The fault of the record here.
    pub fn fault(&self, cause: Cause) -> ReaderFault
        ensures { result ≡ fault cause self.now.at }
    {
        ReaderFault {
            cause,
            place: self.at,
        }
    }

    pub fn mark(&self) -> Result<Mark, ReaderFault>
        ensures { result ≡ mark_at self.now.file.now self.now.at }
    {
        let Some([first, second, ..]) = self.file.get(usize::from(self.at)..) else {
            return Err(self.fault(Cause::CutShort));
        };
        // copied out, since no proof was found of what a closure that borrows the cursor answers
        let place = self.at;
        Mark::try_from([*first, *second]).map_err(|cause| ReaderFault { cause, place })
    }

    // The bytes behind the mark.
    fn fields<const N: usize>(&self) -> Result<[u8; N], ReaderFault>
        requires { N < 2 ^ 32 }
        ensures value { result ≡ whole self.now.file.now self.now.at (self.now.at + 2 + N) (Ok (part self.now.file.now (self.now.at + 2) N)) }
        ensures inside { OnOk result (self.now.at + 2 + N ≤ length self.now.file.now) }
        ensures each { IfOk result (λ bytes. (k : ℕ) → k < N → slice_index bytes k ≡ byte_at self.now.file.now (self.now.at + 2 + k)) }
    {
        let start = usize::from(self.at) + 2;
        let bytes = self
            .file
            .get(start..start + N)
            .ok_or(self.fault(Cause::CutShort))?;
        Ok(<[u8; N]>::try_from(bytes).unwrap())
    }

    fn header(&self) -> Result<(Record<'a>, usize), ReaderFault>
        ensures { shown result ≡ body_at self.now.file.now self.now.at mark.Header }
    {
        let [steps, signals] = self.fields::<2>()?;
        if !(2..=64).contains(&steps) || !(1..=64).contains(&signals) {
            return Err(self.fault(Cause::OffLimits));
        }
        Ok((Record::Header { steps, signals }, usize::from(self.at) + 4))
    }

    fn start(&self) -> Result<(Record<'a>, usize), ReaderFault>
        ensures { shown result ≡ body_at self.now.file.now self.now.at mark.Start }
    {
        let word = u16::from_be_bytes(self.fields::<2>()?);
        Ok((Record::Start { word }, usize::from(self.at) + 4))
    }

    fn effect(&self) -> Result<(Record<'a>, usize), ReaderFault>
        ensures { shown result ≡ body_at self.now.file.now self.now.at mark.Effect }
    {
        let [step, signal, high, low] = self.fields::<4>()?;
        let effect = Effect {
            step,
            signal,
            word: u16::from_be_bytes([high, low]),
        };
        Ok((Record::Effect { effect }, usize::from(self.at) + 6))
    }

    fn need(&self) -> Result<(Record<'a>, usize), ReaderFault>
        ensures { shown result ≡ body_at self.now.file.now self.now.at mark.Need }
    {
        let [step, signal, a_high, a_low, b_high, b_low] = self.fields::<6>()?;
        let condition = Condition {
            a: u16::from_be_bytes([a_high, a_low]),
            b: u16::from_be_bytes([b_high, b_low]),
        };
        let record = Record::Need {
            step,
            signal,
            condition,
        };
        Ok((record, usize::from(self.at) + 8))
    }

    fn pair(&self) -> Result<(Record<'a>, usize), ReaderFault>
        ensures { shown result ≡ body_at self.now.file.now self.now.at mark.Pair }
    {
        let [earlier, later] = self.fields::<2>()?;
        Ok((Record::Pair { earlier, later }, usize::from(self.at) + 4))
    }

    // The part of so many bytes, which begins four bytes on from the mark.
    fn part(&self, length: u8) -> Result<Part<'a>, ReaderFault>
        ensures { part_shown result ≡ whole self.now.file.now self.now.at (self.now.at + 4 + length) (Ok (self.now.at + 4, part self.now.file.now (self.now.at + 4) length)) }
    {
        let place = usize::from(self.at) + 4;
        let bytes = self
            .file
            .get(place..place + usize::from(length))
            .ok_or(self.fault(Cause::CutShort))?;
        Ok(Part { place, bytes })
    }

    // A part of 1 to `most` bytes, and the number of the step or the need whose it is. Behind the mark stand that number and
    // the length.
    fn numbered_part(&self, most: u8) -> Result<(u8, Part<'a>), ReaderFault>
        ensures { numbered_shown result ≡ on_ok (part_at self.now.file.now self.now.at most) (λ x. Ok (byte_at self.now.file.now (self.now.at + 2), x)) }
    {
        let [number, length] = self.fields::<2>()?;
        if !(1..=most).contains(&length) {
            return Err(self.fault(Cause::OffLimits));
        }
        let part = self.part(length)?;
        Ok((number, part))
    }

    // This and `name` are two functions: one that is passed the case would need a closure with clauses, and save no line.
    fn link(&self) -> Result<(Record<'a>, usize), ReaderFault>
        ensures value { shown result ≡ body_at self.now.file.now self.now.at mark.Link }
        ensures places { Placed self.now.at result }
    {
        let (need, contributors) = self.numbered_part(64)?;
        let end = contributors.place + contributors.bytes.len();
        Ok((Record::Link { need, contributors }, end))
    }

    fn name(&self) -> Result<(Record<'a>, usize), ReaderFault>
        ensures value { shown result ≡ body_at self.now.file.now self.now.at mark.Name }
        ensures places { Placed self.now.at result }
    {
        let (step, name) = self.numbered_part(24)?;
        let end = name.place + name.bytes.len();
        Ok((Record::Name { step, name }, end))
    }

    // The record here, which begins with this mark, and the place after it: a pair, as every caller takes it apart at once.
    // `places` is no part of the record's value, which knows no place, so each call that hands the record on says it.
    pub fn body(&self, mark: Mark) -> Result<(Record<'a>, usize), ReaderFault>
        ensures value { shown result ≡ body_at self.now.file.now self.now.at mark }
        ensures places { Placed self.now.at result }
    {
        // a match and no table of functions: it names every mark, and a contract would have to say what a table holds
        match mark {
            Mark::Header => self.header(),
            Mark::Start => self.start(),
            Mark::Effect => self.effect(),
            Mark::Need => self.need(),
            Mark::Pair => self.pair(),
            Mark::Link => self.link(),
            Mark::Name => self.name(),
            Mark::End => Ok((Record::End, usize::from(self.at) + 2)),
        }
    }

    // The record here, and the place after it. Names and contributors are parts of the file.
    pub fn read(&self) -> Result<(Record<'a>, usize), ReaderFault>
        ensures value { shown result ≡ record_at self.now.file.now self.now.at }
        ensures places { Placed self.now.at result }
        ensures exact { RecordsExactly }
    {
        let mark = self.mark()?;
        self.body(mark)
    }
}
