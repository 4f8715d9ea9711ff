// The text of a sheet.
ghost use Rattle.std.specs.Prelude.{OnOk};
ghost use Rattle.listing.specs.Appending.{Appended};
ghost use Rattle.listing.specs.Listing.{sheet_lines};

use crate::lines::push_lines;
use sheet::sheet::Sheet;
use std::alloc::AllocError;

// All lines of a sheet but those of names.
#[tactic(auto, using(std::proofs::Common::append_assoc))]
pub fn push_sheet(text: &mut String, sheet: &Sheet) -> Result<(), AllocError>
    ensures { OnOk result (Appended text.old text.new (sheet_lines sheet.now)) }
{
    let steps = sheet.steps();
    let signals = sheet.starts().len();
    writeln!(text, "SHEET steps {steps} signals {signals}")?;
    push_lines(text, sheet.starts())?;
    push_lines(text, sheet.effects())?;
    push_lines(text, sheet.needs())?;
    push_lines(text, sheet.pairs())
}
