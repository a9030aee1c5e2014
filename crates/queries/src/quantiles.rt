// Quantile: the document of rank r in a range.
ghost use Rattle.std.specs.Prelude.{◌≡◌, ◌-◌, ◌≤◌, ◌<◌};
ghost use Rattle.model.specs.Lists.{part};
ghost use Rattle.model.specs.Opening.{contents};
ghost use Rattle.model.specs.Queries as model;
ghost use Rattle.answers.specs.Answers.{number_of};
ghost use Rattle.model.specs.Outcome.{answered};
ghost use Rattle.queries.specs.Ranges.{quantile_of};

use archive::{Archive, open};
use archive_ranges::{Entries, entry_range, term_range};
use refusals::Refusal;

pub fn quantile_in(archive: &Archive<'_>, a: usize, b: usize, r: usize) -> usize
    requires { (a ≤ b) × (b ≤ archive.now.layout.levels.entries) × (r < b - a) }
    ensures { (result ≡ model.quantile r (part a b (contents archive.now.bytes.now).entries)) × (result < archive.now.layout.documents) }
{
    archive.tree().quantile(a, b, r).document
}

// The quantile of a range inside the entries.
fn quantile_of(archive: &Archive<'_>, range: Entries, r: u32) -> Result<u32, Refusal>
    requires { (range.from ≤ range.to) × (range.to ≤ archive.now.layout.levels.entries) }
    ensures { number_of result ≡ quantile_of (contents archive.now.bytes.now) (answered (record { from = range.from; to = range.to })) r }
{
    if range.to - range.from <= r {
        return Err(Refusal::Argument);
    }
    let document = quantile_in(archive, range.from as usize, range.to as usize, r as usize);
    Ok(document as u32)
}

pub fn quantile_opened(archive: &Archive<'_>, a: u32, b: u32, r: u32) -> Result<u32, Refusal>
    ensures { number_of result ≡ model.quantile_result archive.now.bytes.now (model.of_entries a b) r }
{
    quantile_of(archive, entry_range(archive.layout, a, b)?, r)
}

pub fn quantile_terms_opened(
    archive: &Archive<'_>,
    first: u32,
    last: u32,
    r: u32,
) -> Result<u32, Refusal>
    ensures { number_of result ≡ model.quantile_result archive.now.bytes.now (model.of_terms first last) r }
{
    quantile_of(archive, term_range(archive, first, last)?, r)
}

pub fn quantile(archive: &[u8], a: u32, b: u32, r: u32) -> Result<u32, Refusal>
    ensures { number_of result ≡ model.quantile_result archive.now (model.of_entries a b) r }
{
    quantile_opened(&open(archive)?, a, b, r)
}

pub fn quantile_terms(archive: &[u8], first: u32, last: u32, r: u32) -> Result<u32, Refusal>
    ensures { number_of result ≡ model.quantile_result archive.now (model.of_terms first last) r }
{
    quantile_terms_opened(&open(archive)?, first, last, r)
}
