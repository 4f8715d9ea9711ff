// The text of a whole file.
ghost use Rattle.std.specs.Prelude.{OnOk};
ghost use Rattle.listing.specs.Appending.{Appended};
ghost use Rattle.reader.specs.Reading.{naming};
ghost use Rattle.listing.specs.Whole.{name_text, names_from, ListedAs};

use crate::name::push_name;
use crate::text::push_sheet;
use reader::{ReadError, name, read};
use std::alloc::{AllocError, Global};

// The line of a step's name, if it has one.
fn push_name_of(text: &mut String, file: &[u8], step: u8) -> Result<(), AllocError>
    ensures { OnOk result (Appended text.old text.new (name_text step (naming file.now step))) }
{
    match name(file, u16::from(step)) {
        Ok(Some(part)) => push_name(text, step, &part),
        Ok(None) | Err(_) => Ok(()),
    }
}

fn push_names(text: &mut String, file: &[u8], steps: u8) -> Result<(), AllocError>
    ensures { OnOk result (Appended text.old text.new (names_from file.now 0 steps)) }
{
    for step in 0..steps {
        push_name_of(text, file, step)?;
    }
    Ok(())
}

pub fn list(heap: Global, file: &[u8]) -> Result<String, ReadError>
    ensures { ListedAs file.now result }
{
    let sheet = read(heap, file)?;
    let mut text = String::new(heap);
    push_sheet(&mut text, &sheet)?;
    push_names(&mut text, file, sheet.steps())?;
    Ok(text)
}
