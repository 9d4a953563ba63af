ghost use Rattle.std.specs.Prelude.{◌≡◌, ℕ, List, length};
ghost use Rattle.lil_format.specs.Reading.{Outcome, Reads, ReadsFile, whole};

use crate::source::{Source, offset};
use crate::stop::Stop;
use lil_base::FormatStop;

/// What was read of a file of this size, where nothing is left of it.
pub fn to_end<T: Drop>(
    size: usize,
    source: &Source<'_>,
    read: Result<T, Stop>,
) -> Result<T, FormatStop>
    ensures { (bs : List ℕ) (o : Outcome T) → length bs ≡ size → Reads o read source.now → ReadsFile (whole bs o) result }
{
    let left = match read {
        Err(Stop::Memory) => return Err(FormatStop::Memory),
        Err(Stop::Left(left)) => left,
        Ok(value) => {
            if source.is_empty() {
                return Ok(value);
            }
            drop(value);
            source.left()
        }
    };
    Err(FormatStop::Fault {
        offset: offset(size, left),
    })
}
