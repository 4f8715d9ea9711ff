// Numbered lines, appended to a `String`.
ghost use Rattle.std.specs.Prelude.{ℕ, List, OnOk};
ghost use Rattle.listing.specs.Appending.{Appended};
ghost use Rattle.listing.specs.Listing.{numbered};

use std::alloc::AllocError;

// What has a line of its own, with its number in its list.
// No `Display` of a pair: its output is an `Option`, so each caller of `push_lines` would have to prove that there is one.
pub trait Line {
    ghost line: { ℕ → Self → List ℕ };

    fn push_line(&self, text: &mut String, number: usize) -> Result<(), AllocError>
        ensures { OnOk result (Appended text.old text.new (line number self.now)) };
}

pub fn push_lines<T: Line>(text: &mut String, parts: &[T]) -> Result<(), AllocError>
    ensures { OnOk result (Appended text.old text.new (numbered T.line 0 parts.now)) }
{
    for (i, part) in parts.iter().enumerate() {
        part.push_line(text, i)?;
    }
    Ok(())
}
