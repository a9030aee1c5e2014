// The reader: the check on opening, then the entries and the term lengths.
ghost use Rattle.std.specs.Prelude.{◌≡◌, map, ◌+◌, ◌*◌, ◌≤◌, ◌<◌, length};
ghost use Rattle.bits.specs.Sequences.{below};
ghost use Rattle.model.specs.Lists.{overwrite};
ghost use Rattle.model.specs.Opening.{length_at, contents, read_result};
ghost use Rattle.reader.specs.Reading.{reading_is};

use crate::Sizes;
use crate::rows::read_entries;
use archive::{Archive, open};
use bit_rows::number;
use refusals::Refusal;

// The term lengths, into a slice of their number.
fn read_lengths(archive: &[u8], lengths: &mut [u32])
    requires { (40 + 8 * length lengths.old ≤ length archive.now) × (length lengths.old ≤ 4096) }
    ensures { lengths.new ≡ map (length_at archive.now) (below (length lengths.old)) }
{
    for (t, length) in lengths.iter_mut().enumerate() {
        *length = number(archive, 44 + 8 * t) as u32;
    }
}

// The entries and the term lengths, into the front of two slices that are long enough.
pub fn read_in(archive: &Archive<'_>, entries: &mut [u32], lengths: &mut [u32])
    requires entries_in_bounds { (archive.now.layout.levels.entries ≤ length entries.old) × (archive.now.layout.terms ≤ length lengths.old) }
    ensures entries_after { entries.new ≡ overwrite (contents archive.now.bytes.now).entries entries.old }
    ensures lengths_after { lengths.new ≡ overwrite (contents archive.now.bytes.now).lengths lengths.old }
{
    let n = archive.layout.levels.entries;
    let terms = archive.layout.terms;
    read_entries(&archive.tree(), &mut entries[..n]);
    read_lengths(archive.bytes, &mut lengths[..terms]);
}

// Refusal 12, or n, N and W.
pub fn read_opened(
    archive: &Archive<'_>,
    entries: &mut [u32],
    lengths: &mut [u32],
) -> Result<Sizes, Refusal>
    ensures { reading_is result entries.new lengths.new
        ≡ read_result archive.now.bytes.now entries.old lengths.old }
{
    let sizes = Sizes {
        entries: archive.layout.levels.entries,
        documents: archive.layout.documents,
        terms: archive.layout.terms,
    };
    if entries.len() < sizes.entries || lengths.len() < sizes.terms {
        return Err(Refusal::AnswerSlice);
    }
    read_in(archive, entries, lengths);
    Ok(sizes)
}

// The reader: the entries and the term lengths in the front of two slices, and n, N and W, or the lowest refusal that applies.
pub fn read(archive: &[u8], entries: &mut [u32], lengths: &mut [u32]) -> Result<Sizes, Refusal>
    ensures { reading_is result entries.new lengths.new
        ≡ read_result archive.now entries.old lengths.old }
{
    read_opened(&open(archive)?, entries, lengths)
}
