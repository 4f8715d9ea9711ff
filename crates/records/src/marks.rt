// The two letters of a mark.
ghost use Rattle.std.specs.Prelude.{◌≡◌, slice_index};
ghost use Rattle.records.specs.Shape.{marked, mark_of};

use crate::record::Mark;
use faults::fault::Cause;

impl TryFrom<[u8; 2]> for Mark {
    type Error = Cause;

    ghost try_from_gives = { λ letters r. r ≡ marked (mark_of (slice_index letters 0) (slice_index letters 1)) };

    fn try_from(letters: [u8; 2]) -> Result<Mark, Cause> {
        match &letters {
            b"SH" => Ok(Mark::Header),
            b"SG" => Ok(Mark::Start),
            b"EF" => Ok(Mark::Effect),
            b"ND" => Ok(Mark::Need),
            b"PR" => Ok(Mark::Pair),
            b"LK" => Ok(Mark::Link),
            b"NM" => Ok(Mark::Name),
            b"EN" => Ok(Mark::End),
            _ => Err(Cause::Mark),
        }
    }
}
