// Ranges of an opened archive in either form: the entries a up to but without b, and the terms f to l, both included.
ghost use Rattle.std.specs.Prelude.{◌≡◌};
ghost use Rattle.model.specs.Opening.{contents};
ghost use Rattle.model.specs.Queries.{bounds_of, of_terms};
ghost use Rattle.archive_ranges.specs.Ranges.{bounds_in, entry_bounds, Inside};

use crate::Entries;
use crate::terms::term_start;
use archive::{Archive, Layout};
use refusals::Refusal;

// The entries a up to but without b.
pub fn entry_range(l: Layout, a: u32, b: u32) -> Result<Entries, Refusal>
    ensures { (bounds_in result ≡ entry_bounds l.levels.entries a b) × Inside l.levels.entries result }
{
    if b < a {
        return Err(Refusal::Argument);
    }
    if l.levels.entries < b as usize {
        return Err(Refusal::Argument);
    }
    Ok(Entries { from: a, to: b })
}

// From the start of term f to the end of term l. Where f is no term, l is below it or no term either.
pub fn term_range(archive: &Archive<'_>, f: u32, l: u32) -> Result<Entries, Refusal>
    ensures { (bounds_in result ≡ bounds_of (contents archive.now.bytes.now) (of_terms f l)) × Inside archive.now.layout.levels.entries result }
{
    if l < f {
        return Err(Refusal::Argument);
    }
    let last = l as usize;
    if archive.layout.terms <= last {
        return Err(Refusal::Argument);
    }
    let from = term_start(archive, f as usize) as u32;
    let to = term_start(archive, last + 1) as u32;
    Ok(Entries { from, to })
}
