// A question of top-k before the search: the range is known, and the lent slices are measured.
ghost use Rattle.std.specs.Prelude.{◌≡◌, ◌*◌, ◌≤◌, min, IfOk};
ghost use Rattle.archive_ranges.specs.Ranges.{bounds_in, Inside};
ghost use Rattle.top_k.specs.Asked.{asked_in, posed};

use archive::Archive;
use archive_ranges::Entries;
use refusals::Refusal;
use search::Search;

// The search of a range of an archive, where slices of the given lengths are lent: refusals 12 and 13 follow those of the range.
pub fn over<'a>(
    archive: &Archive<'a>,
    range: Result<Entries, Refusal>,
    k: u32,
    answers: usize,
    work: usize,
) -> Result<Search<'a>, Refusal>
    requires { Inside archive.now.layout.levels.entries range }
    ensures same { asked_in result ≡ posed archive.now.bytes.now k answers work (bounds_in range) }
    ensures room { IfOk result (λ s. (3 * min k s.documents ≤ answers) × (4 * s.documents ≤ work)) }
{
    let range = range?;
    let documents = archive.layout.documents;
    if answers < 3 * documents.min(k as usize) {
        return Err(Refusal::AnswerSlice);
    }
    if work < 4 * documents {
        return Err(Refusal::WorkSlice);
    }
    Ok(Search {
        tree: archive.tree(),
        documents,
        a: range.from as usize,
        b: range.to as usize,
    })
}
