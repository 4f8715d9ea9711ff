// Reading a sheet file into a sheet.
ghost use Rattle.std.specs.Prelude.{◌≡◌, IfOk};
ghost use Rattle.sheet.specs.Limits.{Limits};
ghost use Rattle.reader.specs.declared.reading.ReadError.TheVariants.{Fault, Memory};
ghost use Rattle.reader.specs.Law.{ReadsExactly, PlacesFit};
ghost use Rattle.reader.specs.Results.{ReadAs};

use crate::draft::{add, no_parts};
use crate::walk::Walk;
use faults::fault::ReaderFault;
use sheet::sheet::Sheet;
use std::alloc::{AllocError, Global};

// Why a file is not read: its fault, or want of memory.
#[derive(Clone, Copy, PartialEq, Eq, Debug)]
pub enum ReadError {
    Fault(ReaderFault),
    Memory,
}

// By hand, as the next: the contract of `read` names the error that a `?` makes, and a derived `From` says nothing of it.
impl From<ReaderFault> for ReadError {
    ghost from_gives = { λ e r. r ≡ Fault e };

    fn from(e: ReaderFault) -> ReadError {
        ReadError::Fault(e)
    }
}

impl From<AllocError> for ReadError {
    ghost from_gives = { λ _ r. r ≡ Memory };

    fn from(_e: AllocError) -> ReadError {
        ReadError::Memory
    }
}

// The sheet that the file says, or its one fault. Want of memory comes only for a file whose records have no fault
// up to the one that found no room.
pub fn read(heap: Global, file: &[u8]) -> Result<Sheet, ReadError>
    ensures value { ReadAs file.now result }
    ensures limits { IfOk result Limits }
    ensures exact { ReadsExactly }
    ensures places { PlacesFit }
{
    let mut walk = Walk::new(file);
    let mut parts = no_parts(heap);
    while let Some(record) = walk.next()? {
        add(&mut parts, record)?;
    }
    // what the walk has let through keeps every limit of a sheet
    Ok(Sheet::new(parts).unwrap())
}
