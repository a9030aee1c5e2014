// Top-k of an archive: the greedy search and probing, over entries and over terms, each with its refusals and with the first places of what it lists
// (document 02, M-108). A refusal writes nothing.
// A name that ends in `_opened` is the question of an archive that was opened before.
// That a range lies inside the entries stands in three contracts: a field for it would need the archive beside the two ends, wherever a range is made.
ghost use Rattle.std.specs.Prelude.{◌≡◌, length};
ghost use Rattle.model.specs.Queries.{of_entries, of_terms};
ghost use Rattle.model.specs.TopK.{found_into, greedy_result, probing_result};
ghost use Rattle.archive_ranges.specs.Ranges.{bounds_in, Inside};
ghost use Rattle.moves.specs.Results.{top_k_is};
ghost use Rattle.top_k.specs.Asked.{probed_is, greedy_found, probing_found, posed};

use crate::question::over;
use archive::{Archive, open};
use archive_ranges::{Entries, entry_range, term_range};
use first_places::put_first_places;
use greedy::greedy;
use moves::{Ended, listed};
use probing::probing;
use refusals::Refusal;

// The greedy search of a range; what it lists gets its first places.
fn search_greedily(
    archive: &Archive<'_>,
    range: Result<Entries, Refusal>,
    k: u32,
    allowance: u32,
    answers: &mut [u32],
    work: &mut [u32],
) -> Result<Ended, Refusal>
    requires { Inside archive.now.layout.levels.entries range }
    ensures { top_k_is result answers.new work.new
        ≡ found_into answers.old work.old (greedy_found k allowance (posed archive.now.bytes.now k (length answers.old) (length work.old) (bounds_in range))) }
{
    let s = over(archive, range, k, answers.len(), work.len())?;
    let ended = greedy(&s, k, allowance, answers, work);
    put_first_places(&s.tree, s.a, s.b, listed(ended), answers);
    Ok(ended)
}

// Probing of a range; what it lists gets its first places.
fn search_by_probing(
    archive: &Archive<'_>,
    range: Result<Entries, Refusal>,
    k: u32,
    answers: &mut [u32],
    work: &mut [u32],
) -> Result<u32, Refusal>
    requires { Inside archive.now.layout.levels.entries range }
    ensures { probed_is result answers.new work.new
        ≡ found_into answers.old work.old (probing_found k (posed archive.now.bytes.now k (length answers.old) (length work.old) (bounds_in range))) }
{
    let s = over(archive, range, k, answers.len(), work.len())?;
    let n = probing(&s, k, answers, work);
    put_first_places(&s.tree, s.a, s.b, n, answers);
    Ok(n as u32)
}

// Greedy top-k of the entries a up to but without b.
pub fn greedy_entries_opened(
    archive: &Archive<'_>,
    a: u32,
    b: u32,
    k: u32,
    allowance: u32,
    answers: &mut [u32],
    work: &mut [u32],
) -> Result<Ended, Refusal>
    ensures { top_k_is result answers.new work.new
        ≡ greedy_result archive.now.bytes.now (of_entries a b) k allowance answers.old work.old }
{
    let range = entry_range(archive.layout, a, b);
    search_greedily(archive, range, k, allowance, answers, work)
}

pub fn greedy_entries(
    archive: &[u8],
    a: u32,
    b: u32,
    k: u32,
    allowance: u32,
    answers: &mut [u32],
    work: &mut [u32],
) -> Result<Ended, Refusal>
    ensures { top_k_is result answers.new work.new
        ≡ greedy_result archive.now (of_entries a b) k allowance answers.old work.old }
{
    greedy_entries_opened(&open(archive)?, a, b, k, allowance, answers, work)
}

// Greedy top-k of the terms f to l, both included.
pub fn greedy_terms_opened(
    archive: &Archive<'_>,
    f: u32,
    l: u32,
    k: u32,
    allowance: u32,
    answers: &mut [u32],
    work: &mut [u32],
) -> Result<Ended, Refusal>
    ensures { top_k_is result answers.new work.new
        ≡ greedy_result archive.now.bytes.now (of_terms f l) k allowance answers.old work.old }
{
    let range = term_range(archive, f, l);
    search_greedily(archive, range, k, allowance, answers, work)
}

pub fn greedy_terms(
    archive: &[u8],
    f: u32,
    l: u32,
    k: u32,
    allowance: u32,
    answers: &mut [u32],
    work: &mut [u32],
) -> Result<Ended, Refusal>
    ensures { top_k_is result answers.new work.new
        ≡ greedy_result archive.now (of_terms f l) k allowance answers.old work.old }
{
    greedy_terms_opened(&open(archive)?, f, l, k, allowance, answers, work)
}

// Probing top-k of the entries a up to but without b.
pub fn probing_entries_opened(
    archive: &Archive<'_>,
    a: u32,
    b: u32,
    k: u32,
    answers: &mut [u32],
    work: &mut [u32],
) -> Result<u32, Refusal>
    ensures { probed_is result answers.new work.new
        ≡ probing_result archive.now.bytes.now (of_entries a b) k answers.old work.old }
{
    let range = entry_range(archive.layout, a, b);
    search_by_probing(archive, range, k, answers, work)
}

pub fn probing_entries(
    archive: &[u8],
    a: u32,
    b: u32,
    k: u32,
    answers: &mut [u32],
    work: &mut [u32],
) -> Result<u32, Refusal>
    ensures { probed_is result answers.new work.new
        ≡ probing_result archive.now (of_entries a b) k answers.old work.old }
{
    probing_entries_opened(&open(archive)?, a, b, k, answers, work)
}

// Probing top-k of the terms f to l, both included.
pub fn probing_terms_opened(
    archive: &Archive<'_>,
    f: u32,
    l: u32,
    k: u32,
    answers: &mut [u32],
    work: &mut [u32],
) -> Result<u32, Refusal>
    ensures { probed_is result answers.new work.new
        ≡ probing_result archive.now.bytes.now (of_terms f l) k answers.old work.old }
{
    let range = term_range(archive, f, l);
    search_by_probing(archive, range, k, answers, work)
}

pub fn probing_terms(
    archive: &[u8],
    f: u32,
    l: u32,
    k: u32,
    answers: &mut [u32],
    work: &mut [u32],
) -> Result<u32, Refusal>
    ensures { probed_is result answers.new work.new
        ≡ probing_result archive.now (of_terms f l) k answers.old work.old }
{
    probing_terms_opened(&open(archive)?, f, l, k, answers, work)
}
