// Listing a range: every document in it once, ascending, with its count and its first place.
ghost use Rattle.std.specs.Prelude.{◌≡◌, ◌+◌, ◌*◌, ◌^◌, ◌≤◌, ◌<◌, length};
ghost use Rattle.model.specs.Lists.{part};
ghost use Rattle.model.specs.Opening.{contents};
ghost use Rattle.model.specs.Queries.{listing, placed_listing, list_result, of_entries, of_terms};
ghost use Rattle.wavelet.specs.Levels.{entries_in};
ghost use Rattle.wavelet.specs.Spans.{span, Ordered};
ghost use Rattle.answers.specs.Answers.{pairs_of};
ghost use Rattle.model.specs.Outcome.{answered};
ghost use Rattle.answers.specs.Written.{Written, Lists, ListsPlaced};
ghost use Rattle.listing.specs.Listing.{list_of, pairs_under};
ghost use Rattle.listing.specs.Places.{noted_under, Cursors};

use crate::pass::note_end;
use crate::places::put_places;
use answers::put_pair;
use archive::{Archive, open};
use archive_ranges::{Entries, entry_range, term_range};
use refusals::Refusal;
use wavelet::{Span, Tree};

// The documents of the range lo to hi of the node q of level j, which spans start to end, as pairs from pair number `at` on.
// The zero half is tried, then the one half; an empty one is left at once. Rows that remain fall at each call. The places pass as numbers: a struct would be
// copied on the way. The cursors of the nodes with entries of the range begin at its end.
fn list_node(
    tree: &Tree<'_>,
    j: usize,
    q: usize,
    start: usize,
    lo: usize,
    hi: usize,
    end: usize,
    at: usize,
    answers: &mut [u32],
    cursors: &mut [u16],
) -> usize
    requires j_le_height { (j ≤ tree.now.levels.height) × (q < 2 ^ j) × Ordered tree.now.levels.entries (span start lo hi end)
        × (2 * (at + length (pairs_under tree.now.bytes.now tree.now.levels j q (span start lo hi end))) ≤ length answers.old) × (2 ^ tree.now.levels.height ≤ length cursors.old) }
    ensures written { Written (pairs_under tree.now.bytes.now tree.now.levels j q (span start lo hi end)) at answers.old answers.new result }
    ensures cursors_after { cursors.new ≡ noted_under tree.now.bytes.now tree.now.levels j q (span start lo hi end) cursors.old }
{
    if lo == hi {
        return at;
    }
    if j == tree.levels.height {
        put_pair(answers, at, q, hi - lo);
        return at + 1;
    }
    note_end(cursors, j, q, hi);
    let two = tree.halve(j, Span { start, lo, hi, end });
    let zero = two.zero;
    let one = two.one;
    let middle = list_node(
        tree,
        j + 1,
        2 * q,
        zero.start,
        zero.lo,
        zero.hi,
        zero.end,
        at,
        answers,
        cursors,
    );
    if one.lo == one.hi {
        return middle;
    }
    list_node(
        tree,
        j + 1,
        2 * q + 1,
        one.start,
        one.lo,
        one.hi,
        one.end,
        middle,
        answers,
        cursors,
    )
}

// The documents of the entries a up to but without b, as pairs in the front of the answers, and the cursors of their nodes; how many.
fn list_range(
    tree: &Tree<'_>,
    a: usize,
    b: usize,
    answers: &mut [u32],
    cursors: &mut [u16],
) -> usize
    requires a_le_b { (a ≤ b) × (b ≤ tree.now.levels.entries) × (2 * length (listing (2 ^ tree.now.levels.height) (part a b (entries_in tree.now.bytes.now tree.now.levels))) ≤ length answers.old)
        × (2 ^ tree.now.levels.height ≤ length cursors.old) }
    ensures lists { Lists (listing (2 ^ tree.now.levels.height) (part a b (entries_in tree.now.bytes.now tree.now.levels))) result answers.old answers.new }
    ensures cursors { Cursors tree.now.levels.height (entries_in tree.now.bytes.now tree.now.levels) a b b cursors.new }
{
    list_node(
        tree,
        0,
        0,
        0,
        a,
        b,
        tree.levels.entries,
        0,
        answers,
        cursors,
    )
}

// The documents of a range of an opened archive, with their first places: none of its numbers from N up to 2 ^ h occurs.
pub fn list_in(archive: &Archive<'_>, a: usize, b: usize, answers: &mut [u32]) -> usize
    requires { (a ≤ b) × (b ≤ archive.now.layout.levels.entries) × (3 * archive.now.layout.documents ≤ length answers.old) }
    ensures { ListsPlaced (placed_listing archive.now.layout.documents a (part a b (contents archive.now.bytes.now).entries)) result answers.old answers.new }
{
    let tree = archive.tree();
    let mut cursors = [0u16; 4096];
    let n = list_range(&tree, a, b, answers, &mut cursors);
    put_places(&tree, a, b, n, &mut cursors, answers);
    n
}

// The listing of a range inside the entries.
fn list_of(archive: &Archive<'_>, range: Entries, answers: &mut [u32]) -> Result<u32, Refusal>
    requires { (range.from ≤ range.to) × (range.to ≤ archive.now.layout.levels.entries) }
    ensures { pairs_of result answers.new ≡ list_of (contents archive.now.bytes.now) (answered (record { from = range.from; to = range.to })) answers.old }
{
    if answers.len() < 3 * archive.layout.documents {
        return Err(Refusal::AnswerSlice);
    }
    let n = list_in(archive, range.from as usize, range.to as usize, answers);
    Ok(n as u32)
}

pub fn list_opened(
    archive: &Archive<'_>,
    a: u32,
    b: u32,
    answers: &mut [u32],
) -> Result<u32, Refusal>
    ensures { pairs_of result answers.new ≡ list_result archive.now.bytes.now (of_entries a b) answers.old }
{
    list_of(archive, entry_range(archive.layout, a, b)?, answers)
}

pub fn list_terms_opened(
    archive: &Archive<'_>,
    first: u32,
    last: u32,
    answers: &mut [u32],
) -> Result<u32, Refusal>
    ensures { pairs_of result answers.new ≡ list_result archive.now.bytes.now (of_terms first last) answers.old }
{
    list_of(archive, term_range(archive, first, last)?, answers)
}

pub fn list(archive: &[u8], a: u32, b: u32, answers: &mut [u32]) -> Result<u32, Refusal>
    ensures { pairs_of result answers.new ≡ list_result archive.now (of_entries a b) answers.old }
{
    list_opened(&open(archive)?, a, b, answers)
}

pub fn list_terms(
    archive: &[u8],
    first: u32,
    last: u32,
    answers: &mut [u32],
) -> Result<u32, Refusal>
    ensures { pairs_of result answers.new ≡ list_result archive.now (of_terms first last) answers.old }
{
    list_terms_opened(&open(archive)?, first, last, answers)
}
