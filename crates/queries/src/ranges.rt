// The range of the terms f to l, both included, as entries.
ghost use Rattle.std.specs.Prelude.{◌≡◌};
ghost use Rattle.model.specs.Queries.{range_result, of_terms};
ghost use Rattle.archive_ranges.specs.Ranges.{bounds_in};

use archive::open;
use archive_ranges::{Entries, term_range};
use refusals::Refusal;

// From the start of the first term to the end of the last one.
pub fn range_of_terms(archive: &[u8], first: u32, last: u32) -> Result<Entries, Refusal>
    ensures { bounds_in result ≡ range_result archive.now (of_terms first last) }
{
    term_range(&open(archive)?, first, last)
}
